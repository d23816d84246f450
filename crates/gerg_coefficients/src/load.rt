// The tables of an accepted file, from its bytes. Doubles and integers are lent side by side: a struct of the two would be taken apart again at each store, and named by
// one path more in each clause.
ghost use Rattle.std.specs.Prelude.{◌≡◌, true, List, ◌++◌, ℕ, ◌+◌, ◌*◌, ◌≤◌, ◌<◌, Float, length, replicate, Ok};
ghost use Rattle.std.proofs.lemmas.List.Edits.{sets};
ghost use Rattle.numerics.specs.Double.{+0};
ghost use Rattle.gerg_file.specs.Kinds as Kinds;
ghost use Rattle.gerg_file.specs.Laid.{Laid};
ghost use Rattle.gerg_file.specs.Counts.{sum, terms_of, departures_of};
ghost use Rattle.gerg_tables.specs.Check.{PairsFinite};
ghost use Rattle.gerg_coefficients.specs.Load as Load;
ghost use Rattle.gerg_coefficients.specs.Filling.{FinitePairs};
ghost use Rattle.gerg_coefficients.specs.Filling.{padded};

use crate::store::{put_byte_records, put_records};
use gerg_file::Layout;
use gerg_file::bytes::{double_inside, term_count};
use gerg_file::kinds::{
    COMPONENT, COMPONENT_MASS, COMPONENT_TC, DEPARTURE, FUNCTION, PAIR, REVISION, TERM,
};

// Tc and MMiGERG of each component. They stand before the counts, and `COMPONENT` names the doubles past them: by `put_records` they would be those of
// a kind of their own.
fn put_critical(s: &[u8], doubles: &mut [f64; 4086])
    requires { (Kinds.revision).size + (Kinds.component).size * 21 ≤ length s.now }
    ensures { doubles.new ≡ sets doubles.old 0 (Load.critical s.now) }
{
    for i in 0..21 {
        let at = REVISION.size + COMPONENT.size * i;
        doubles[2 * i] = double_inside(s, at + COMPONENT_TC);
        doubles[2 * i + 1] = double_inside(s, at + COMPONENT_MASS);
    }
}

// Tc and MMiGERG, n0i and th0i, kpol and kexp of each component.
#[tactic(auto, unfolding(crate::specs::Load::ideal, crate::specs::Load::counts))]
fn put_components(s: &[u8], doubles: &mut [f64; 4086], integers: &mut [u8; 1631])
    requires { (Kinds.revision).size + (Kinds.component).size * 21 ≤ length s.now }
    ensures { (doubles.new ≡ sets (sets doubles.old 0 (Load.critical s.now)) 42 (Load.ideal s.now)) × (integers.new ≡ sets integers.old 0 (Load.counts s.now)) }
{
    put_critical(s, doubles);
    put_records(s, COMPONENT, REVISION.size, 21, 11, 42, doubles);
    put_byte_records(s, COMPONENT, REVISION.size, 21, 2, 0, integers);
}

// The terms of the components, whose section begins at `from`: noik and toik, coik and doik. A row begins where the one before it ends, which the counts that were read tell.
fn put_terms(s: &[u8], from: usize, doubles: &mut [f64; 4086], integers: &mut [u8; 1631])
    requires { ((i : ℕ) → i < 21 → terms_of s.now i ≤ 24) × (from + (Kinds.term).size * sum (terms_of s.now) 21 ≤ length s.now) }
    ensures { ((a : List Float) → length a ≡ 273 → doubles.old ≡ padded 4086 +0 a → doubles.new ≡ padded 4086 +0 (a ++ Load.term_doubles s.now from)) × ((a : List ℕ) → length a ≡ 42 → integers.old ≡ padded 1631 0 a → integers.new ≡ padded 1631 0 (a ++ Load.term_integers s.now from)) }
{
    let mut at = from;
    for i in 0..21 {
        let count = term_count(s, REVISION.size, COMPONENT.bytes + COMPONENT.size * i);
        put_records(s, TERM, at, count, 2, 273 + 48 * i, doubles);
        put_byte_records(s, TERM, at, count, 2, 42 + 48 * i, integers);
        at += TERM.size * count;
    }
}

// The pairs of components, whose section begins at `from`: btij, bvij, gtij, gvij and fij, mNumb. True only where all those doubles are finite.
// Each row has one pair less than the one before: by i alone it would begin i * (43 - i) / 2 records on, so its place is handed on.
fn put_pairs(s: &[u8], from: usize, doubles: &mut [f64; 4086], integers: &mut [u8; 1631]) -> bool
    requires { from + (Kinds.pair).size * 231 ≤ length s.now }
    ensures { ((a : List Float) → length a ≡ 1281 → doubles.old ≡ padded 4086 +0 a → doubles.new ≡ padded 4086 +0 (a ++ Load.pair_doubles s.now from)) × (((a : List ℕ) → length a ≡ 1050 → integers.old ≡ padded 1631 0 a → integers.new ≡ padded 1631 0 (a ++ Load.pair_integers s.now from)) × (result ≡ true → (i : ℕ) → i < 21 → FinitePairs s.now from i)) }
{
    let mut at = from;
    let mut all = true;
    for i in 0..21 {
        let count = 21 - i;
        let finite = put_records(s, PAIR, at, count, 5, 1281 + 105 * i + 5 * i, doubles);
        put_byte_records(s, PAIR, at, count, 1, 1050 + 21 * i + i, integers);
        all = all & finite;
        at += PAIR.size * count;
    }
    all
}

// kpolij + kexpij of departure function m, and 0 where the file has none.
#[tactic(auto, unfolding(gerg_file::specs::Counts::departures_of))]
fn departures_of(s: &[u8], functions: usize, count: usize, m: usize) -> usize
    requires { m < 10 }
    ensures { (result ≡ departures_of s.now functions count m) × (result ≤ 510) }
{
    if m < count {
        term_count(s, functions, FUNCTION.bytes + FUNCTION.size * m)
    } else {
        0
    }
}

// The terms of the `count` departure functions at `functions`, whose section begins at `from`: cijk, eijk, gijk, nijk and tijk, dijk.
// As with the terms of the components, the counts that were read tell where each begins. The places are three of the six numbers of a `Layout`: by the struct each
// clause would name them by one path more.
fn put_departures(
    s: &[u8],
    functions: usize,
    count: usize,
    from: usize,
    doubles: &mut [f64; 4086],
    integers: &mut [u8; 1631],
)
    requires { ((m : ℕ) → departures_of s.now functions count m ≤ 12) × (from + (Kinds.departure).size * sum (departures_of s.now functions count) 10 ≤ length s.now) }
    ensures { ((a : List Float) → length a ≡ 3486 → doubles.old ≡ padded 4086 +0 a → doubles.new ≡ padded 4086 +0 (a ++ Load.departure_doubles s.now functions count from)) × ((a : List ℕ) → length a ≡ 1511 → integers.old ≡ padded 1631 0 a → integers.new ≡ padded 1631 0 (a ++ Load.departure_integers s.now functions count from)) }
{
    let mut at = from;
    for m in 0..10 {
        let terms = departures_of(s, functions, count, m);
        put_records(s, DEPARTURE, at, terms, 5, 3486 + 60 * m, doubles);
        put_byte_records(s, DEPARTURE, at, terms, 1, 1511 + 12 * m, integers);
        at += DEPARTURE.size * terms;
    }
}

// All numbers of a well-formed file. True only where those of the pairs are finite.
pub fn put_tables(s: &[u8], l: Layout, doubles: &mut [f64; 4086], integers: &mut [u8; 1631]) -> bool
    requires { Laid s.now l × ((doubles.old ≡ replicate 4086 +0) × (integers.old ≡ replicate 1631 0)) }
    ensures { (doubles.new ≡ Load.doubles s.now l) × ((integers.new ≡ Load.integers s.now l) × (result ≡ true → PairsFinite doubles.new)) }
{
    put_components(s, doubles, integers);
    put_terms(s, l.terms, doubles, integers);
    let finite = put_pairs(s, l.pairs, doubles, integers);
    put_byte_records(s, FUNCTION, l.functions, l.count, 2, 1491, integers);
    put_departures(s, l.functions, l.count, l.departures, doubles, integers);
    finite
}
