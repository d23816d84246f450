// What the derivatives take from the temperature alone: powers of tau and the ideal part's numbers, in the cells of one array.
// A place stays a usize with its bound in the clause: loops and readers have it so, and a type of places would be made and taken apart at each call.
ghost use Rattle.std.specs.Prelude.{◌≡◌, ◌+◌, ◌<◌};
ghost use Rattle.numerics.specs.Iterate.{range};
ghost use Rattle.elementary_ln.specs.Ln.{ln_of};
ghost use Rattle.gerg_tables.specs.Lent.{lent};
ghost use Rattle.gerg_isotherm.specs.Isotherm as is;

use crate::lent::Isotherm;
use crate::part::Part;
use crate::temperature::Temperature;
use elementary::power;
use elementary_ln::ln;
use gerg_reducing::GergModel;
use gerg_tables::coefficients::Coefficients;
use gerg_tables::named;

// The array, the tables, the fractions and the temperature stay parameters, here and below: no fact ties them, and as fields of one struct they
// make each clause longer.

#[tactic(auto, unfolding(crate::specs::Isotherm::written, numerics::specs::Iterate::iter))]
fn write_three(out: &mut [f64; 939], at: usize, a: f64, b: f64, c: f64)
    requires { at < 937 }
    ensures { out.new ≡ is.written (is.three a b c) at 3 out.old }
{
    // Three stores, which is what `written` says; of a copy the library says another list.
    out[at] = a;
    out[at + 1] = b;
    out[at + 2] = c;
}

// The numbers of one part of component i, of n0i and th0i 4 + j, unless that th0i is 0.
#[tactic(auto, unfolding(crate::specs::Isotherm::part_row, crate::specs::Isotherm::cell_of))]
fn part_row(
    out: &mut [f64; 939],
    part: Part,
    doubles: &[f64; 4086],
    x: f64,
    temperature: f64,
    i: usize,
    j: usize,
    at: usize,
)
    requires { (i < 21) × (j < 4) × (at < 937) }
    ensures { out.new ≡ is.part_row part doubles.now x temperature i j at out.old }
{
    let theta = named::th0i(doubles, i, j);
    if theta == 0.0 {
        return;
    }
    let c = named::n0i(doubles, i, 3 + j);
    let v = theta / temperature;
    let s = part.function(v);
    let value = x * c * ln::ln(s);
    let slope = part.slope(x * c * v, v);
    let curvature = x * c * power::powi_byte(v / s, 2);
    write_three(out, at, value, slope, curvature);
}

// The numbers of component i's ideal part.
#[tactic(auto, unfolding(crate::specs::Isotherm::ideal_row, crate::specs::Isotherm::base_cell))]
fn ideal_row(out: &mut [f64; 939], doubles: &[f64; 4086], x: f64, at: Temperature, i: usize)
    requires { i < 21 }
    ensures { out.new ≡ is.ideal_row doubles.now x at.t i out.old }
{
    let quotient = named::n0i(doubles, i, 1) / at.t;
    let product = named::n0i(doubles, i, 2) * at.ln_t;
    let ln_x = ln::ln(x);
    write_three(out, 624 + 15 * i, ln_x, quotient, product);
    part_row(out, Part::Sinh, doubles, x, at.t, i, 0, 627 + 15 * i);
    part_row(out, Part::Cosh, doubles, x, at.t, i, 1, 630 + 15 * i);
    part_row(out, Part::Sinh, doubles, x, at.t, i, 2, 633 + 15 * i);
    part_row(out, Part::Cosh, doubles, x, at.t, i, 3, 636 + 15 * i);
}

// tau^toik of each term of component i. Its loop and the next read another table into another place: a closure for the exponent makes neither shorter.
#[tactic(auto, using(crate::proofs::Laws::Written::written_begins, crate::proofs::Laws::Written::written_turn, crate::proofs::Laws::Written::written_done, elementary::proofs::Laws::powf_from_ln), unfolding(crate::specs::Isotherm::pure_row))]
fn pure_row(out: &mut [f64; 939], coefficients: Coefficients, at: Temperature, i: usize)
    requires { i < 21 }
    ensures { out.new ≡ is.pure_row (lent coefficients.entry) at.tau i out.old }
{
    let n = coefficients.pure_terms(i);
    for k in 0..n {
        let exponent = named::toik(coefficients.doubles, i, k);
        out[24 * i + k] = power::powf_of_ln(at.tau, at.ln_tau, exponent);
    }
}

// tau^tijk of each term of departure function m.
#[tactic(auto, using(crate::proofs::Laws::Written::written_begins, crate::proofs::Laws::Written::written_turn, crate::proofs::Laws::Written::written_done, elementary::proofs::Laws::powf_from_ln), unfolding(crate::specs::Isotherm::departure_row))]
fn departure_row(out: &mut [f64; 939], coefficients: Coefficients, at: Temperature, m: usize)
    requires { m < 10 }
    ensures { out.new ≡ is.departure_row (lent coefficients.entry) at.tau m out.old }
{
    let n = coefficients.departure_terms(m);
    for k in 0..n {
        let exponent = named::tijk(coefficients.doubles, m, k);
        out[504 + 12 * m + k] = power::powf_of_ln(at.tau, at.ln_tau, exponent);
    }
}

// Those that the pair i, j uses.
#[tactic(auto, using(gerg_tables::proofs::Departure::has_function, gerg_tables::proofs::Departure::has_none), unfolding(crate::specs::Isotherm::pair_row))]
fn pair_row(
    out: &mut [f64; 939],
    coefficients: Coefficients,
    x: &[f64; 21],
    at: Temperature,
    i: usize,
    j: usize,
)
    requires { (i < j) × (j < 21) }
    ensures { out.new ≡ is.pair_row (lent coefficients.entry) x.now at.tau i j out.old }
{
    let Some(m) = coefficients.departure_function(i, j) else {
        return;
    };
    if x[j] == 0.0 {
        return;
    }
    departure_row(out, coefficients, at, m);
}

#[tactic(auto, using(numerics::specs::Iterate::range_begins, numerics::specs::Iterate::range_turn, numerics::specs::Iterate::range_done))]
fn pair_rows(
    out: &mut [f64; 939],
    coefficients: Coefficients,
    x: &[f64; 21],
    at: Temperature,
    i: usize,
)
    requires { i < 21 }
    ensures { out.new ≡ range (is.pair_row (lent coefficients.entry) x.now at.tau i) (i + 1) 21 out.old }
{
    for j in i + 1..21 {
        pair_row(out, coefficients, x, at, i, j);
    }
}

#[tactic(auto, unfolding(crate::specs::Isotherm::component_rows))]
fn component_rows(
    out: &mut [f64; 939],
    coefficients: Coefficients,
    x: &[f64; 21],
    at: Temperature,
    i: usize,
)
    requires { i < 21 }
    ensures { out.new ≡ is.component_rows (lent coefficients.entry) x.now at.t at.tau i out.old }
{
    let xi = x[i];
    if xi == 0.0 {
        return;
    }
    pure_row(out, coefficients, at, i);
    ideal_row(out, coefficients.doubles, xi, at, i);
    pair_rows(out, coefficients, x, at, i);
}

#[tactic(auto, using(numerics::specs::Iterate::iter_begins, numerics::specs::Iterate::iter_turn, numerics::specs::Iterate::iter_done), unfolding(crate::specs::Isotherm::all_rows))]
fn all_rows(out: &mut [f64; 939], coefficients: Coefficients, x: &[f64; 21], at: Temperature)
    ensures { out.new ≡ is.all_rows (lent coefficients.entry) x.now at.t at.tau out.old }
{
    for i in 0..21 {
        component_rows(out, coefficients, x, at, i);
    }
}

impl<'a> Isotherm<'a> {
    // Of a mixture at a temperature. The maker has the cells, since an isotherm lends them.
    #[tactic(auto, unfolding(crate::specs::Isotherm::isotherm_of, crate::specs::Isotherm::zero_cells))]
    pub fn of(
        coefficients: Coefficients<'a>,
        model: &'a GergModel,
        temperature: f64,
        cells: &'a mut [f64; 939],
    ) -> Isotherm<'a>
        ensures coefficients { result.coefficients ≡ coefficients.entry }
        ensures model { result.model.now ≡ model.now }
        ensures temperature { result.temperature ≡ temperature }
    {
        let tau = model.reducing_temperature / temperature;
        let at = Temperature {
            t: temperature,
            ln_t: ln::ln(temperature),
            tau,
            ln_tau: ln::ln(tau),
        };
        *cells = [0.0; 939];
        all_rows(cells, coefficients, &model.fractions, at);
        Isotherm {
            coefficients,
            model,
            temperature,
            cells,
        }
    }
}
