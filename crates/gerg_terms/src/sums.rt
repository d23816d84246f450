// The sums over components, terms and pairs at a temperature and a molar density. Powers of tau come from the isotherm's cells, powers of delta
// with small exponents from an array made once for the density.
// A place stays a usize with its bound in the clause: loops and readers have it so, and a type of places would be made and taken apart at each call.
ghost use Rattle.std.specs.Prelude.{◌≡◌, ◌<◌};
ghost use Rattle.gerg_tables.specs.Lent.{lent};
ghost use Rattle.gerg_derivatives.specs.Derivatives.{zero_derivatives};
ghost use Rattle.gerg_terms.specs.Terms as is;

use crate::lent::{IdealCells, MolarDensity, PureCells};
use crate::{departure, ideal, pure};
use elementary_ln::ln;
use gerg_derivatives::derivatives::GergDerivatives;
use gerg_derivatives::powers;
use gerg_derivatives::powers::{ReducedDensity, SmallPowers};
use gerg_isotherm::lent::IsothermRows;

// Rows, molar density and reduced density stay parameters: no fact ties them, and no function below takes all three.

// Component i, passed over where its fraction is 0.
#[tactic(auto, unfolding(crate::specs::Terms::component))]
fn component(
    a: GergDerivatives,
    rows: IsothermRows,
    density: MolarDensity,
    reduced: ReducedDensity,
    i: usize,
) -> GergDerivatives
    requires { i < 21 }
    ensures { result ≡ is.component (lent rows.entry.coefficients) rows.entry.fractions.now rows.entry.temperature density.rho reduced.entry.small.delta rows.entry.tau i a }
{
    let x = rows.fractions[i];
    if x == 0.0 {
        return a;
    }
    let pure = PureCells {
        coefficients: rows.coefficients,
        tau: rows.tau,
        cells: rows.cells,
        i,
        x,
    };
    let ideal = IdealCells {
        doubles: rows.coefficients.doubles,
        temperature: rows.temperature,
        cells: rows.cells,
        i,
        x,
    };
    let sum = pure::pure_terms(a, pure, reduced);
    let sum = ideal::ideal_part(sum, ideal, density);
    departure::departure_pairs(sum, rows, reduced, i)
}

#[tactic(auto, using(numerics::specs::Iterate::iter_begins, numerics::specs::Iterate::iter_turn, numerics::specs::Iterate::iter_done), unfolding(crate::specs::Terms::components_of))]
fn components(
    a: GergDerivatives,
    rows: IsothermRows,
    density: MolarDensity,
    reduced: ReducedDensity,
) -> GergDerivatives
    ensures { result ≡ is.components_of (lent rows.entry.coefficients) rows.entry.fractions.now rows.entry.temperature density.rho reduced.entry.small.delta rows.entry.tau a }
{
    let mut sum = a;
    for i in 0..21 {
        sum = component(sum, rows, density, reduced, i);
    }
    sum
}

// The sums at one density: what does not change over the terms is taken once.
pub fn sums(rows: IsothermRows, rho: f64, delta: f64) -> GergDerivatives
    ensures { result ≡ is.components_of (lent rows.entry.coefficients) rows.entry.fractions.now rows.entry.temperature rho delta rows.entry.tau zero_derivatives }
{
    let density = MolarDensity {
        rho,
        logarithm: ln::ln(rho / 1000.0),
    };
    let logarithm = ln::ln(delta);
    let cells = powers::powers(delta, logarithm);
    let small = SmallPowers {
        delta,
        cells: &cells,
    };
    let reduced = ReducedDensity { small, logarithm };
    components(GergDerivatives::default(), rows, density, reduced)
}
