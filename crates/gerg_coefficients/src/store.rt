// Numbers of the file's records, stored into the arrays of the tables. The arrays are lent as zeros, so a place for which the file has no record is not written.
ghost use Rattle.std.specs.Prelude.{◌≡◌, true, ℕ, ◌+◌, ◌*◌, ◌≤◌, ◌<◌, length};
ghost use Rattle.std.proofs.lemmas.List.Edits.{sets};
ghost use Rattle.gerg_coefficients.specs.Load.{doubles_at, bytes_at, run_of};
ghost use Rattle.gerg_coefficients.specs.Filling.{FiniteAt};

use gerg_file::bytes::{double_inside, word_inside};
use gerg_file::kinds::Kind;

// n doubles that stand in a row, of whatever patterns, stored from `to` on. A function that fills a whole slice, as `states` has, would be lent a part of the array here,
// and the proof would put that part back into the array of which `sets` speaks.
fn put_any_doubles(s: &[u8], at: usize, n: usize, to: usize, out: &mut [f64; 4086])
    requires { (at + 8 * n ≤ length s.now) × (to + n ≤ 4086) }
    ensures { out.new ≡ sets out.old to (doubles_at s.now at n) }
{
    for k in 0..n {
        out[to + k] = double_inside(s, at + 8 * k);
    }
}

// The same. Patterns are stored as they are up to the first that is not a finite number's, so that a run of numbers is copied without a choice for each. True
// only where all are finite.
fn put_doubles(s: &[u8], at: usize, n: usize, to: usize, out: &mut [f64; 4086]) -> bool
    requires { (at + 8 * n ≤ length s.now) × (to + n ≤ 4086) }
    ensures { (out.new ≡ sets out.old to (doubles_at s.now at n)) × (result ≡ true → FiniteAt s.now at n) }
{
    for k in 0..n {
        let w = word_inside(s, at + 8 * k);
        if 0xffe0_0000_0000_0000 <= w % 0x8000_0000_0000_0000 * 2 {
            put_any_doubles(s, at + 8 * k, n - k, to + k, out);
            return false;
        }
        out[to + k] = f64::from_bits(w);
    }
    true
}

// n bytes that stand in a row, stored from `to` on. They are one or two: `copy_from_slice` would first test whether the slices overlap, which takes longer than the copy.
fn put_bytes(s: &[u8], at: usize, n: usize, to: usize, out: &mut [u8; 1631])
    requires { (at + n ≤ length s.now) × (to + n ≤ 1631) }
    ensures { out.new ≡ sets out.old to (bytes_at s.now at n) }
{
    for k in 0..n {
        out[to + k] = s[at + k];
    }
}

// The first `per` doubles of each of `count` records of one kind, of which the first begins at `from`, stored from `to` on. True only where all are finite.
pub fn put_records(
    s: &[u8],
    kind: Kind,
    from: usize,
    count: usize,
    per: usize,
    to: usize,
    out: &mut [f64; 4086],
) -> bool
    requires { (kind.doubles + 8 * per ≤ kind.size) × ((from + kind.size * count ≤ length s.now) × (to + per * count ≤ 4086)) }
    ensures { (out.new ≡ sets out.old to (run_of (doubles_at s.now) (from + kind.doubles) kind.size count per)) × (result ≡ true → (k : ℕ) → k < count → FiniteAt s.now (from + kind.doubles + kind.size * k) per) }
{
    let mut all = true;
    for k in 0..count {
        let finite = put_doubles(
            s,
            from + kind.doubles + kind.size * k,
            per,
            to + per * k,
            out,
        );
        // Not `all`, which would stop at the first that is not finite: each is stored.
        all = all & finite;
    }
    all
}

// The same for bytes, of which there is nothing to tell. One loop over a closure would have to be lent the array at each turn, to no gain.
pub fn put_byte_records(
    s: &[u8],
    kind: Kind,
    from: usize,
    count: usize,
    per: usize,
    to: usize,
    out: &mut [u8; 1631],
)
    requires { (kind.bytes + per ≤ kind.size) × ((from + kind.size * count ≤ length s.now) × (to + per * count ≤ 1631)) }
    ensures { out.new ≡ sets out.old to (run_of (bytes_at s.now) (from + kind.bytes) kind.size count per) }
{
    for k in 0..count {
        put_bytes(s, from + kind.bytes + kind.size * k, per, to + per * k, out);
    }
}
