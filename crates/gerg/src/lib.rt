// GERG-2008: the Helmholtz derivatives of a mixture, and its properties.
#![tactic(auto)]

pub mod evaluate;
pub mod helmholtz;

use gerg_derivatives::derivatives::GergDerivatives;

// The ends of the range in which the equation is used.
#[derive(Clone, Copy)]
pub struct Range {
    // K
    pub temperature_low: f64,
    pub temperature_high: f64,
    // Pa
    pub pressure_high: f64,
}

// Homogeneous state in molar SI units.
#[derive(Clone, Copy)]
pub struct GergState {
    pub temperature_k: f64,
    // mol/m³
    pub molar_density: f64,
    pub mass_density: f64,
    pub pressure_pa: f64,
    pub compressibility: f64,
    // Pa/(mol/m³), at fixed T and composition
    pub dp_drho: f64,
    // Pa/K at fixed molar density and composition
    pub dp_dt: f64,
    pub internal_energy: f64,
    pub enthalpy: f64,
    pub entropy: f64,
    pub cv: f64,
    pub cp: f64,
    pub speed_of_sound: f64,
    pub helmholtz_energy: f64,
    pub gibbs_energy: f64,
    pub derivatives: GergDerivatives,
}
