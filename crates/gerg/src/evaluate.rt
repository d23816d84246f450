// The properties of a homogeneous state, and rows 6 to 12.
#![tactic(auto, unfolding(crate::specs::Evaluate::compressibility_of, crate::specs::Evaluate::pressure_of, crate::specs::Evaluate::trial_pressure_of, crate::specs::Evaluate::stiffness_of, crate::specs::Evaluate::pressure_slope_of, crate::specs::Evaluate::cv_of, crate::specs::Evaluate::cp_of, crate::specs::Evaluate::internal_energy_of, crate::specs::Evaluate::helmholtz_energy_of, crate::specs::Evaluate::entropy_of, crate::specs::Evaluate::speed_of_sound_of, crate::specs::Evaluate::parts_of, crate::specs::Evaluate::state_from, crate::specs::Evaluate::state_of, crate::specs::Evaluate::finite_state, crate::specs::Evaluate::unstable, crate::specs::Evaluate::pressure_out, crate::specs::Evaluate::admitted_of, crate::specs::Evaluate::admitted_answer, crate::specs::Evaluate::evaluate_of))]

ghost use Rattle.std.specs.Prelude.{◌≡◌};
ghost use Rattle.gerg_tables.specs.Lent.{lent};
ghost use Rattle.gerg.specs.Evaluate as is;

use crate::{GergState, Range, helmholtz};
use elementary::power;
use elementary_sqrt::sqrt;
use gerg_derivatives::derivatives::GergDerivatives;
use gerg_isotherm::lent::Isotherm;
use gerg_reducing::GergModel;
use gerg_refusals::Refusal;
use gerg_tables::coefficients::Coefficients;
use gerg_tables::numbers::is_finite;

// The gas constant of the equation, J/(mol K).
pub const GERG_GAS_CONSTANT: f64 = 8.314472;

// The derivatives, the temperature and the density are parameters of their own, in the order of the definitions: a function takes those that its
// property depends on.
fn compressibility(a: GergDerivatives) -> f64
    ensures { result ≡ is.compressibility_of a }
{
    1.0 + a.ar_d
}

fn pressure(a: GergDerivatives, temperature: f64, rho: f64) -> f64
    ensures { result ≡ is.pressure_of a temperature rho }
{
    let z = compressibility(a);
    rho * GERG_GAS_CONSTANT * temperature * z
}

// The pressure of a trial at a density, which searches compare with their target. Not `pressure`: the product is taken in another order, and the last bit may differ.
pub fn trial_pressure(a: GergDerivatives, temperature: f64, rho: f64) -> f64
    ensures { result ≡ is.trial_pressure_of a temperature rho }
{
    let z = compressibility(a);
    rho * (GERG_GAS_CONSTANT * temperature) * z
}

pub fn stiffness(a: GergDerivatives, temperature: f64) -> f64
    ensures { result ≡ is.stiffness_of a temperature }
{
    GERG_GAS_CONSTANT * temperature * (1.0 + 2.0 * a.ar_d + a.ar_dd)
}

fn pressure_slope(a: GergDerivatives, rho: f64) -> f64
    ensures { result ≡ is.pressure_slope_of a rho }
{
    rho * GERG_GAS_CONSTANT * (1.0 + a.ar_d - a.ar_dt)
}

fn cv(a: GergDerivatives) -> f64
    ensures { result ≡ is.cv_of a }
{
    -GERG_GAS_CONSTANT * (a.a0_tt + a.ar_tt)
}

fn cp(temperature: f64, rho: f64, cv: f64, slope: f64, stiffness: f64) -> f64
    ensures { result ≡ is.cp_of temperature rho cv slope stiffness }
{
    cv + temperature * power::powi_byte(slope / rho, 2) / stiffness
}

fn internal_energy(a: GergDerivatives, temperature: f64) -> f64
    ensures { result ≡ is.internal_energy_of a temperature }
{
    GERG_GAS_CONSTANT * temperature * (a.a0_t + a.ar_t)
}

fn helmholtz_energy(a: GergDerivatives, temperature: f64) -> f64
    ensures { result ≡ is.helmholtz_energy_of a temperature }
{
    GERG_GAS_CONSTANT * temperature * (a.a0 + a.ar)
}

fn entropy(a: GergDerivatives) -> f64
    ensures { result ≡ is.entropy_of a }
{
    GERG_GAS_CONSTANT * (a.a0_t + a.ar_t - a.a0 - a.ar)
}

fn speed_of_sound(cp: f64, cv: f64, stiffness: f64, mass: f64) -> f64
    ensures { result ≡ is.speed_of_sound_of cp cv stiffness mass }
{
    sqrt::sqrt(cp / cv * stiffness / mass)
}

// What several properties are made of.
#[derive(Clone, Copy)]
pub struct Parts {
    pub pressure: f64,
    pub stiffness: f64,
    pub slope: f64,
    pub cv: f64,
    pub cp: f64,
    pub internal_energy: f64,
    pub helmholtz_energy: f64,
}

fn parts_of(a: GergDerivatives, temperature: f64, rho: f64) -> Parts
    ensures { result ≡ is.parts_of a temperature rho }
{
    let p = pressure(a, temperature, rho);
    let pd = stiffness(a, temperature);
    let pt = pressure_slope(a, rho);
    let c = cv(a);
    let cp = cp(temperature, rho, c, pt, pd);
    let u = internal_energy(a, temperature);
    let h = helmholtz_energy(a, temperature);
    Parts {
        pressure: p,
        stiffness: pd,
        slope: pt,
        cv: c,
        cp,
        internal_energy: u,
        helmholtz_energy: h,
    }
}

// A state takes its derivatives, temperature, density and mass besides the parts, so no `From` makes it of them.
fn state_from(a: GergDerivatives, temperature: f64, rho: f64, mass: f64, p: Parts) -> GergState
    ensures { result ≡ is.state_from a temperature rho mass p }
{
    let z = compressibility(a);
    let s = entropy(a);
    let sound = speed_of_sound(p.cp, p.cv, p.stiffness, mass);
    GergState {
        temperature_k: temperature,
        molar_density: rho,
        mass_density: rho * mass,
        pressure_pa: p.pressure,
        compressibility: z,
        dp_drho: p.stiffness,
        dp_dt: p.slope,
        internal_energy: p.internal_energy,
        enthalpy: p.internal_energy + p.pressure / rho,
        entropy: s,
        cv: p.cv,
        cp: p.cp,
        speed_of_sound: sound,
        helmholtz_energy: p.helmholtz_energy,
        gibbs_energy: p.helmholtz_energy + p.pressure / rho,
        derivatives: a,
    }
}

fn state_of(a: GergDerivatives, temperature: f64, rho: f64, mass: f64) -> GergState
    ensures { result ≡ is.state_of a temperature rho mass }
{
    let parts = parts_of(a, temperature, rho);
    state_from(a, temperature, rho, mass, parts)
}

fn finite_state(s: GergState) -> bool
    ensures { result ≡ is.finite_state s }
{
    is_finite(s.cp)
        & is_finite(s.internal_energy)
        & is_finite(s.helmholtz_energy)
        & is_finite(s.speed_of_sound)
        & is_finite(s.dp_drho)
        & is_finite(s.dp_dt)
}

fn unstable(a: GergDerivatives, temperature: f64) -> bool
    ensures { result ≡ is.unstable a temperature }
{
    let pd = stiffness(a, temperature);
    let c = cv(a);
    (pd <= 0.0) | (c <= 0.0)
}

fn pressure_out(high: f64, pressure: f64) -> bool
    ensures { result ≡ is.pressure_out high pressure }
{
    !((0.0 <= pressure) & (pressure <= high)) | (pressure == 0.0)
}

// Rows 10 to 12, then the state.
fn admitted(
    a: GergDerivatives,
    temperature: f64,
    rho: f64,
    mass: f64,
    high: f64,
) -> Result<GergState, Refusal>
    ensures { result ≡ is.admitted_of a temperature rho mass high }
{
    if unstable(a, temperature) {
        return Err(Refusal::Unstable);
    }
    if pressure_out(high, pressure(a, temperature, rho)) {
        return Err(Refusal::Pressure);
    }
    let s = state_of(a, temperature, rho, mass);
    if finite_state(s) {
        return Ok(s);
    }
    Err(Refusal::NotFinite)
}

// Rows 6 to 12 at one density of an isotherm.
pub fn evaluate_at(isotherm: Isotherm, range: Range, rho: f64) -> Result<GergState, Refusal>
    ensures { result ≡ is.evaluate_of (lent isotherm.entry.coefficients) isotherm.entry.model.now range isotherm.entry.temperature rho }
{
    let a = helmholtz::helmholtz_at(isotherm, range, rho)?;
    let mass = isotherm.model.molar_mass;
    admitted(a, isotherm.temperature, rho, mass, range.pressure_high)
}

pub fn evaluate(
    coefficients: Coefficients,
    model: &GergModel,
    range: Range,
    temperature: f64,
    rho: f64,
) -> Result<GergState, Refusal>
    ensures { result ≡ is.evaluate_of (lent coefficients.entry) model.now range temperature rho }
{
    let mut cells = [0.0; 939];
    let isotherm = Isotherm::of(coefficients, model, temperature, &mut cells);
    evaluate_at(isotherm, range, rho)
}
