// The ideal part of a component. What it takes from the temperature alone stands in the isotherm's cells.
// A place stays a usize with its bound in the clause: loops and readers have it so, and a type of places would be made and taken apart at each call.

ghost use Rattle.std.specs.Prelude.{◌≡◌, ◌+◌, ◌<◌};
ghost use Rattle.numerics.specs.Double.{◌⊘◌};
ghost use Rattle.gerg_tables.specs.Tables as named;
ghost use Rattle.gerg_isotherm.specs.Isotherm as cells;
ghost use Rattle.gerg_isotherm.specs.Rows.{PartRow};
ghost use Rattle.gerg_terms.specs.Terms as is;

use crate::lent::{IdealCells, MolarDensity};
use gerg_derivatives::derivatives::GergDerivatives;
use gerg_derivatives::parts;
use gerg_isotherm::part::Part;
use gerg_tables::named;

// The logarithms and n0i 1 to 3.
fn ideal_base(a: GergDerivatives, ideal: IdealCells, density: MolarDensity) -> GergDerivatives
    ensures { result ≡ is.ideal_base ideal.entry.doubles.now ideal.entry.x ideal.entry.temperature density.rho ideal.entry.i a }
{
    let x = ideal.x;
    let n1 = named::n0i(ideal.doubles, ideal.i, 0);
    let n3 = named::n0i(ideal.doubles, ideal.i, 2);
    let at = 624 + 15 * ideal.i;
    let ln_x = ideal.cells[at];
    let quotient = ideal.cells[at + 1];
    let product = ideal.cells[at + 2];
    parts::added(
        a,
        x * (density.logarithm + ln_x + n1 + quotient - product),
        x * (n3 + quotient),
        x * n3,
    )
}

// n0i and th0i 4 + j of the component; the cells stand from `at` on.
#[tactic(auto, unfolding(crate::specs::Terms::part_term, crate::specs::Terms::ideal_term))]
fn ideal_term(
    a: GergDerivatives,
    part: Part,
    ideal: IdealCells,
    j: usize,
    at: usize,
) -> GergDerivatives
    requires { (j < 4) × (at < 937) × PartRow (named.th0i ideal.doubles.now ideal.i j)
        (cells.cell_of part ideal.x (named.n0i ideal.doubles.now ideal.i (3 + j)) (named.th0i ideal.doubles.now ideal.i j ⊘ ideal.temperature)) at ideal.cells.now }
    ensures { result ≡ is.ideal_term part ideal.entry.doubles.now ideal.entry.x ideal.entry.temperature ideal.entry.i j a }
{
    if named::th0i(ideal.doubles, ideal.i, j) == 0.0 {
        return a;
    }
    let value = ideal.cells[at];
    let slope = ideal.cells[at + 1];
    let curvature = ideal.cells[at + 2];
    match part {
        Part::Sinh => parts::added(a, value, slope, curvature),
        Part::Cosh => parts::taken(a, value, slope, curvature),
    }
}

#[tactic(auto, unfolding(crate::specs::Terms::ideal_part))]
pub fn ideal_part(a: GergDerivatives, ideal: IdealCells, density: MolarDensity) -> GergDerivatives
    ensures { result ≡ is.ideal_part ideal.entry.doubles.now ideal.entry.x ideal.entry.temperature density.rho ideal.entry.i a }
{
    let at = 627 + 15 * ideal.i;
    let base = ideal_base(a, ideal, density);
    let to_4 = ideal_term(base, Part::Sinh, ideal, 0, at);
    let to_5 = ideal_term(to_4, Part::Cosh, ideal, 1, at + 3);
    let to_6 = ideal_term(to_5, Part::Sinh, ideal, 2, at + 6);
    ideal_term(to_6, Part::Cosh, ideal, 3, at + 9)
}
