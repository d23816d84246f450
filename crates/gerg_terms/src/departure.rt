// The departure terms of a component's pairs with the later components.
// A place stays a usize with its bound in the clause: loops and readers have it so, and a type of places would be made and taken apart at each call.

ghost use Rattle.std.specs.Prelude.{◌≡◌, false, ◌+◌, ◌*◌, ◌<◌, get_or};
ghost use Rattle.std.specs.Float.{nan};
ghost use Rattle.numerics.specs.Iterate.{range};
ghost use Rattle.gerg_tables.specs.Lent.{lent};
ghost use Rattle.gerg_reducing.specs.Reduced.{absent};
ghost use Rattle.gerg_isotherm.specs.Isotherm as cells;
ghost use Rattle.gerg_terms.specs.Terms as is;

use crate::lent::DepartureCells;
use elementary::power;
use elementary_exp::exp;
use gerg_derivatives::derivatives::GergDerivatives;
use gerg_derivatives::parts;
use gerg_derivatives::parts::{Departed, Exponent};
use gerg_derivatives::powers::ReducedDensity;
use gerg_isotherm::lent::IsothermRows;
use gerg_tables::coefficients::Coefficients;
use gerg_tables::named;

// Among the polynomial terms the exponent is 0 and its exponential 1.
#[tactic(auto, unfolding(crate::specs::Terms::exponent_of))]
fn exponent_of(coefficients: Coefficients, delta: f64, m: usize, k: usize) -> Exponent
    requires { (m < 10) × (k < 12) }
    ensures { result ≡ is.exponent_of (lent coefficients.entry) delta m k }
{
    if k < usize::from(named::kpolij(coefficients.integers, m)) {
        return Exponent {
            c: 0.0,
            e: 0.0,
            exponential: 1.0,
        };
    }
    let c = named::cijk(coefficients.doubles, m, k) * delta * delta;
    let e = named::eijk(coefficients.doubles, m, k) * delta;
    let g = named::gijk(coefficients.doubles, m, k);
    let exponential = exp::exp(c + e + g);
    Exponent { c, e, exponential }
}

// Term k: its power of tau is the isotherm's cell.
#[tactic(auto, unfolding(crate::specs::Terms::departure_term))]
fn departure_term(
    a: GergDerivatives,
    departure: DepartureCells,
    reduced: ReducedDensity,
    k: usize,
) -> GergDerivatives
    requires { (k < 12) × (get_or departure.cells.now (504 + 12 * departure.m + k) nan ≡ cells.departure_cell departure.coefficients.doubles.now departure.tau departure.m k) }
    ensures { result ≡ is.departure_term (lent departure.entry.coefficients) departure.entry.factor reduced.entry.small.delta departure.entry.tau departure.entry.m k a }
{
    let m = departure.m;
    let tables = departure.coefficients;
    let exponent = exponent_of(tables, reduced.small.delta, m, k);
    let b = named::dijk(tables.integers, m, k);
    parts::departed_term(
        a,
        Departed {
            factor: departure.factor,
            n: named::nijk(tables.doubles, m, k),
            delta_power: reduced.power(b),
            tau_power: departure.cells[504 + 12 * m + k],
            t: named::tijk(tables.doubles, m, k),
            d: power::signed_double(b),
            exponent,
        },
    )
}

// The loop of the pure terms over other terms: a closure for the term makes neither shorter.
#[tactic(auto, using(numerics::specs::Iterate::iter_begins, numerics::specs::Iterate::iter_turn, numerics::specs::Iterate::iter_done), unfolding(crate::specs::Terms::departure_terms))]
fn departure_terms(
    a: GergDerivatives,
    departure: DepartureCells,
    reduced: ReducedDensity,
) -> GergDerivatives
    ensures { result ≡ is.departure_terms (lent departure.entry.coefficients) departure.entry.factor reduced.entry.small.delta departure.entry.tau departure.entry.m a }
{
    let n = departure.coefficients.departure_terms(departure.m);
    let mut sum = a;
    for k in 0..n {
        sum = departure_term(sum, departure, reduced, k);
    }
    sum
}

#[tactic(auto, using(gerg_tables::proofs::Departure::has_function, gerg_tables::proofs::Departure::has_none), unfolding(crate::specs::Terms::departure_pair))]
fn departure_pair(
    a: GergDerivatives,
    rows: IsothermRows,
    reduced: ReducedDensity,
    i: usize,
    j: usize,
) -> GergDerivatives
    requires { (i < j) × (j < 21) × (absent (get_or rows.fractions.now i nan) ≡ false) }
    ensures { result ≡ is.departure_pair (lent rows.entry.coefficients) rows.entry.fractions.now reduced.entry.small.delta rows.entry.tau i j a }
{
    let Some(m) = rows.coefficients.departure_function(i, j) else {
        return a;
    };
    let xj = rows.fractions[j];
    if xj == 0.0 {
        return a;
    }
    let factor = rows.fractions[i] * xj * named::fij(rows.coefficients.doubles, i, j);
    let departure = DepartureCells {
        coefficients: rows.coefficients,
        tau: rows.tau,
        cells: rows.cells,
        m,
        factor,
    };
    departure_terms(a, departure, reduced)
}

#[tactic(auto, using(numerics::specs::Iterate::range_begins, numerics::specs::Iterate::range_turn, numerics::specs::Iterate::range_done))]
pub fn departure_pairs(
    a: GergDerivatives,
    rows: IsothermRows,
    reduced: ReducedDensity,
    i: usize,
) -> GergDerivatives
    requires { (i < 21) × (absent (get_or rows.fractions.now i nan) ≡ false) }
    ensures { result ≡ range (is.departure_pair (lent rows.entry.coefficients) rows.entry.fractions.now reduced.entry.small.delta rows.entry.tau i) (i + 1) 21 a }
{
    let mut sum = a;
    for j in i + 1..21 {
        sum = departure_pair(sum, rows, reduced, i, j);
    }
    sum
}
