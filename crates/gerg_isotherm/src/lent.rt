// An isotherm that is lent, and what the sums read of it.
ghost use Rattle.std.specs.Prelude.{◌≡◌};
ghost use Rattle.gerg_tables.specs.Lent.{lent};
ghost use Rattle.gerg_isotherm.specs.Isotherm.{isotherm_of};
ghost use Rattle.gerg_isotherm.specs.Rows.{Rows};

use gerg_reducing::GergModel;
use gerg_tables::coefficients::Coefficients;

// The cells of a mixture at a temperature, with what they are made of. One array, whose places the head of specs/Isotherm says: `isotherm_of`, on which every promise of an
// isotherm stands, is one list.
#[derive(Clone, Copy)]
pub struct Isotherm<'a> {
    pub coefficients: Coefficients<'a>,
    pub model: &'a GergModel,
    // K
    pub temperature: f64,
    pub cells: &'a [f64; 939],
    pub ghost worked: { cells.now ≡ isotherm_of (lent coefficients) model.now temperature },
}

// Cells in which every row stands that the sums read. The fractions and tau need not be those of a model.
#[derive(Clone, Copy)]
pub struct IsothermRows<'a> {
    pub coefficients: Coefficients<'a>,
    pub fractions: &'a [f64; 21],
    // K
    pub temperature: f64,
    pub tau: f64,
    pub cells: &'a [f64; 939],
    pub ghost rows: { Rows (lent coefficients) fractions.now temperature tau cells.now },
}
