// Fugacity coefficients of a state: ln φ of each listed component.
// A place stays a usize with its bound in the clause: loops and readers have it so, and a type of places would be made and taken apart at each call.
#![tactic(auto, unfolding(crate::specs::Fugacity::through_reducing, gerg_reducing::specs::Reducing::bumped, crate::specs::Fugacity::ln_phi))]

ghost use Rattle.std.specs.Prelude.{◌≡◌, ◌≤◌, ◌<◌, length, get_or};
ghost use Rattle.std.specs.Float.{nan};
ghost use Rattle.gerg_tables.specs.Lent.{lent};
ghost use Rattle.gerg_fugacity.specs.Fugacity as fug;

use elementary_ln::ln::ln;
use gerg::GergState;
use gerg_composition::composition;
use gerg_derivatives::derivatives::GergDerivatives;
use gerg_model::mixture;
use gerg_reducing::lent::Mixture;
use gerg_refusals::Refusal;

// What component i adds through the reducing volume and the reducing temperature.
fn through_reducing(mixture: Mixture, a: GergDerivatives, i: usize, g: &mut [f64; 21])
    requires { i < 21 }
    ensures { g.new ≡ fug.through_reducing mixture.entry.model.now mixture.entry.gradients.now a i g.old }
{
    let model = mixture.model;
    let gradients = mixture.gradients;
    let volume = 1000.0 / model.reducing_density;
    g[i] = g[i]
        + (a.ar_d * gradients[0][i] / volume
            + a.ar_t * gradients[1][i] / model.reducing_temperature);
}

// The derivatives by mole fraction at temperature t and density rho.
fn molar_gradient(mixture: Mixture, a: GergDerivatives, t: f64, rho: f64) -> [f64; 21]
    ensures { result ≡ fug.molar_gradient (lent mixture.entry.coefficients) mixture.entry.model.now mixture.entry.gradients.now a t rho }
{
    let model = mixture.model;
    let delta = rho / model.reducing_density;
    let tau = model.reducing_temperature / t;
    let mut h = composition::composition(mixture.coefficients, &model.fractions, delta, tau);
    // i is a component, and so a place in three arrays
    for i in 0..21 {
        through_reducing(mixture, a, i, &mut h);
    }
    h
}

// No `sum`, which begins at −0: of products that are all −0 it gives −0, and this 0.
fn weighted_sum(x: &[f64; 21], g: &[f64; 21]) -> f64
    ensures { result ≡ fug.weighted_sum x.now g.now }
{
    let mut sum = 0.0;
    for (fraction, derivative) in x.iter().zip(g) {
        sum += *fraction * *derivative;
    }
    sum
}

// ln φ of a component, from the derivative by its mole fraction.
fn ln_phi(derivatives: GergDerivatives, derivative: f64, weighted: f64, ln_z: f64) -> f64
    ensures { result ≡ fug.ln_phi derivatives derivative weighted ln_z }
{
    derivatives.ar + derivatives.ar_d + derivative - weighted - ln_z
}

// ln φ of each listed component, in list order. t and rho stay parameters, here and below: no clause asks that they are the state's, and to ask it would be more.
fn ln_phis(mixture: Mixture, state: GergState, t: f64, rho: f64) -> [f64; 21]
    ensures { result ≡ fug.ln_phis (lent mixture.entry.coefficients) mixture.entry.model.now mixture.entry.gradients.now state t rho }
{
    let a = state.derivatives;
    let model = mixture.model;
    let g = molar_gradient(mixture, a, t, rho);
    let weighted = weighted_sum(&model.fractions, &g);
    let ln_z = ln(state.compressibility);
    let mut values = [0.0; 21];
    let listed = &model.component_indices[..model.components];
    // By index, as `gerg_model::mixture::indices`; of the 21 places as many count as the model lists.
    for (k, component) in listed.iter().enumerate() {
        values[k] = ln_phi(a, g[usize::from(*component)], weighted, ln_z);
    }
    values
}

// ln φ of each listed component, to the front of `out`; all are worked out before any is written, and a refusal leaves `out` as lent.
pub fn fugacity(
    mixture: Mixture,
    state: GergState,
    t: f64,
    rho: f64,
    out: &mut [f64],
) -> Result<(), Refusal>
    requires { mixture.model.now.components ≤ length out.old }
    ensures answer { result ≡ fug.fugacity_of (lent mixture.entry.coefficients) mixture.entry.model.now mixture.entry.gradients.now state t rho }
    ensures memory { out.new ≡ fug.fugacity_memory (lent mixture.entry.coefficients) mixture.entry.model.now mixture.entry.gradients.now state t rho out.old }
{
    let values = ln_phis(mixture, state, t, rho);
    let n = mixture.model.components;
    if mixture::first_nonfinite(&values[..n]).is_none() {
        out[..n].copy_from_slice(&values[..n]);
        return Ok(());
    }
    Err(Refusal::NotFinite)
}
