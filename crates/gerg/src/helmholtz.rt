// Rows 6 to 9, and the nine derivatives where they pass.
#![tactic(auto, unfolding(crate::specs::Helmholtz::all_finite, crate::specs::Helmholtz::checked_of, crate::specs::Helmholtz::within_range, crate::specs::Helmholtz::helmholtz_of, crate::specs::Helmholtz::normal_range, crate::specs::Helmholtz::extended_range))]

ghost use Rattle.std.specs.Prelude.{◌≡◌};
ghost use Rattle.gerg_tables.specs.Lent.{lent};
ghost use Rattle.gerg.specs.Helmholtz as is;

use crate::Range;
use gerg_derivatives::derivatives::GergDerivatives;
use gerg_isotherm::lent::{Isotherm, IsothermRows};
use gerg_reducing::GergModel;
use gerg_refusals::Refusal;
use gerg_tables::coefficients::Coefficients;
use gerg_tables::numbers::is_finite;
use gerg_terms::sums;

fn all_finite(a: GergDerivatives) -> bool
    ensures { result ≡ is.all_finite a }
{
    is_finite(a.ar)
        & is_finite(a.ar_d)
        & is_finite(a.ar_dd)
        & is_finite(a.ar_t)
        & is_finite(a.ar_tt)
        & is_finite(a.ar_dt)
        & is_finite(a.a0)
        & is_finite(a.a0_t)
        & is_finite(a.a0_tt)
}

// Row 9.
fn checked(a: GergDerivatives) -> Result<GergDerivatives, Refusal>
    ensures { result ≡ is.checked_of a }
{
    if all_finite(a) {
        return Ok(a);
    }
    Err(Refusal::Derivative)
}

fn within_range(range: Range, temperature: f64, rho: f64) -> bool
    ensures { result ≡ is.within_range range temperature rho }
{
    (range.temperature_low <= temperature)
        & (temperature <= range.temperature_high)
        & ((0.001 <= rho) & (rho <= 30000.0))
}

// 200 to 450 K, pressures to 35 MPa. Functions and no constants, here and below: a clause says of each that it is the range of the definition.
pub fn normal_range() -> Range
    ensures { result ≡ is.normal_range }
{
    Range {
        temperature_low: 200.0,
        temperature_high: 450.0,
        pressure_high: 35.0e6,
    }
}

// 60 to 700 K, pressures to 70 MPa.
pub fn extended_range() -> Range
    ensures { result ≡ is.extended_range }
{
    Range {
        temperature_low: 60.0,
        temperature_high: 700.0,
        pressure_high: 70.0e6,
    }
}

// Rows 6 to 9 at one density of an isotherm.
#[tactic(auto, using(gerg_isotherm::proofs::Laws::Lent::lent_rows), unfolding(crate::specs::Helmholtz::helmholtz_of))]
pub fn helmholtz_at(isotherm: Isotherm, range: Range, rho: f64) -> Result<GergDerivatives, Refusal>
    ensures { result ≡ is.helmholtz_of (lent isotherm.entry.coefficients) isotherm.entry.model.now range isotherm.entry.temperature rho }
{
    if !is_finite(rho) {
        return Err(Refusal::DensityNotFinite);
    }
    if rho <= 0.0 {
        return Err(Refusal::DensityNotPositive);
    }
    if !within_range(range, isotherm.temperature, rho) {
        return Err(Refusal::OutsideRange);
    }
    let model = isotherm.model;
    // Written out: a `From` would be used here alone, and its clauses name the five fields again.
    let rows = IsothermRows {
        coefficients: isotherm.coefficients,
        fractions: &model.fractions,
        temperature: isotherm.temperature,
        tau: model.reducing_temperature / isotherm.temperature,
        cells: isotherm.cells,
    };
    checked(sums::sums(rows, rho, rho / model.reducing_density))
}

// Beside the form that takes an isotherm, here and in `evaluate` and `density`: a call at one density has only the tables and the model to make it of.
pub fn helmholtz(
    coefficients: Coefficients,
    model: &GergModel,
    range: Range,
    temperature: f64,
    rho: f64,
) -> Result<GergDerivatives, Refusal>
    ensures { result ≡ is.helmholtz_of (lent coefficients.entry) model.now range temperature rho }
{
    let mut cells = [0.0; 939];
    let isotherm = Isotherm::of(coefficients, model, temperature, &mut cells);
    helmholtz_at(isotherm, range, rho)
}
