// The pure terms of a component.
// A place stays a usize with its bound in the clause: loops and readers have it so, and a type of places would be made and taken apart at each call.

ghost use Rattle.std.specs.Prelude.{◌≡◌, ◌+◌, ◌*◌, ◌<◌, get_or};
ghost use Rattle.std.specs.Float.{nan};
ghost use Rattle.gerg_tables.specs.Lent.{lent};
ghost use Rattle.gerg_isotherm.specs.Isotherm as cells;
ghost use Rattle.gerg_terms.specs.Terms as is;

use crate::lent::PureCells;
use elementary::power;
use gerg_derivatives::derivatives::GergDerivatives;
use gerg_derivatives::parts;
use gerg_derivatives::parts::Damped;
use gerg_derivatives::powers::ReducedDensity;
use gerg_tables::named;

// The exponent of delta in the damping of term k of component i. Not an Option as in gerg_composition, where an exponent of 0 damps by exp(−1):
// here 0 is no damping, so that None would be a second name of it.
#[tactic(auto, unfolding(crate::specs::Terms::damping_exponent))]
fn damping_exponent(integers: &[u8; 1631], i: usize, k: usize) -> u8
    requires { (i < 21) × (k < 24) }
    ensures { result ≡ is.damping_exponent integers.now i k }
{
    if k < usize::from(named::kpol(integers, i)) {
        return 0;
    }
    named::coik(integers, i, k)
}

// Term k: its power of tau is the isotherm's cell.
#[tactic(auto, unfolding(crate::specs::Terms::pure_term))]
fn pure_term(
    a: GergDerivatives,
    pure: PureCells,
    reduced: ReducedDensity,
    k: usize,
) -> GergDerivatives
    requires { (k < 24) × (get_or pure.cells.now (24 * pure.i + k) nan ≡ cells.pure_cell pure.coefficients.doubles.now pure.tau pure.i k) }
    ensures { result ≡ is.pure_term (lent pure.entry.coefficients) pure.entry.x reduced.entry.small.delta pure.entry.tau pure.entry.i k a }
{
    let tables = pure.coefficients;
    let i = pure.i;
    let b = named::doik(tables.integers, i, k);
    let q = damping_exponent(tables.integers, i, k);
    // Both tests on q stand together, so that one branch does for them.
    let damping = reduced.small.damping(q);
    let exponential = reduced.small.exponential(damping, q);
    let delta_power = reduced.power(b);
    parts::damped_term(
        a,
        Damped {
            x: pure.x,
            n: named::noik(tables.doubles, i, k),
            delta_power,
            tau_power: pure.cells[24 * i + k],
            exponential,
            t: named::toik(tables.doubles, i, k),
            d: power::signed_double(b),
            q: power::signed_double(q),
            damping,
        },
    )
}

#[tactic(auto, using(numerics::specs::Iterate::iter_begins, numerics::specs::Iterate::iter_turn, numerics::specs::Iterate::iter_done), unfolding(crate::specs::Terms::pure_terms))]
pub fn pure_terms(a: GergDerivatives, pure: PureCells, reduced: ReducedDensity) -> GergDerivatives
    ensures { result ≡ is.pure_terms (lent pure.entry.coefficients) pure.entry.x reduced.entry.small.delta pure.entry.tau pure.entry.i a }
{
    let n = pure.coefficients.pure_terms(pure.i);
    let mut sum = a;
    for k in 0..n {
        sum = pure_term(sum, pure, reduced, k);
    }
    sum
}
