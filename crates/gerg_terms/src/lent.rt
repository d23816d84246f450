// What a component, a departure function and a molar density are summed from: the cells that are read, each with the row that stands in them.
// `PureCells` and `DepartureCells` are no one struct: the bound, the table of the row and its place differ, and a type parameter carries none of them.
ghost use Rattle.std.specs.Prelude.{◌≡◌, ◌+◌, ◌*◌, ◌<◌};
ghost use Rattle.numerics.specs.Double.{◌⊘◌};
ghost use Rattle.elementary_ln.specs.Ln.{ln_of};
ghost use Rattle.gerg_tables.specs.Tables as named;
ghost use Rattle.gerg_reducing.specs.Reduced.{thousand};
ghost use Rattle.gerg_isotherm.specs.Isotherm as is;
ghost use Rattle.gerg_isotherm.specs.Rows.{Row, IdealRows};

use gerg_tables::coefficients::Coefficients;

// A molar density with the logarithm that the ideal parts take.
#[derive(Clone, Copy)]
pub struct MolarDensity {
    // mol/m³
    pub rho: f64,
    // of rho / 1000
    pub logarithm: f64,
    pub ghost logarithm_is: { logarithm ≡ ln_of (rho ⊘ thousand) },
}

// Component i, from 0, and its fraction, with the powers of tau of its terms.
#[derive(Clone, Copy)]
pub struct PureCells<'a> {
    pub coefficients: Coefficients<'a>,
    pub tau: f64,
    pub cells: &'a [f64; 939],
    pub i: usize,
    pub x: f64,
    pub ghost known: { i < 21 },
    pub ghost row: { Row (is.pure_cell coefficients.doubles.now tau i) (24 * i) (named.kpol coefficients.integers.now i + named.kexp coefficients.integers.now i) cells.now },
}

// Component i, from 0, and its fraction, with what the ideal part takes from the temperature alone.
#[derive(Clone, Copy)]
pub struct IdealCells<'a> {
    pub doubles: &'a [f64; 4086],
    // K
    pub temperature: f64,
    pub cells: &'a [f64; 939],
    pub i: usize,
    pub x: f64,
    pub ghost known: { i < 21 },
    pub ghost rows: { IdealRows doubles.now x temperature i cells.now },
}

// Departure function m, from 0, of a pair, and the pair's factor x_i × x_j × fij, with the powers of tau of its terms.
#[derive(Clone, Copy)]
pub struct DepartureCells<'a> {
    pub coefficients: Coefficients<'a>,
    pub tau: f64,
    pub cells: &'a [f64; 939],
    pub m: usize,
    pub factor: f64,
    pub ghost known: { m < 10 },
    pub ghost row: { Row (is.departure_cell coefficients.doubles.now tau m) (504 + 12 * m) (named.kpolij coefficients.integers.now m + named.kexpij coefficients.integers.now m) cells.now },
}
