// What the C exports make of an answer: number × 2^32 + value, and the doubles that an accepted one leaves in lent memory.
#![tactic(auto, unfolding(crate::specs::Answers::accepted_code, crate::specs::Answers::numbers_of, crate::specs::Answers::properties_written, crate::specs::Answers::density_numbers, crate::specs::Answers::density_written, crate::specs::Answers::saturation_code, crate::specs::Answers::saturation_numbers, crate::specs::Answers::saturation_written, gerg_refusals::specs::Code::code, gerg_refusals::specs::Code::code_of))]

ghost use Rattle.std.specs.Prelude.{◌≡◌};
ghost use Rattle.gerg_answers.specs.Answers as is;

use gerg::GergState;
use gerg_density::DensityResult;
use gerg_refusals::Refusal;
use gerg_refusals::code::code;
use gerg_saturation::PureSaturation;

// The code of an answer that reports nothing beside number 0.
pub fn accepted_code<T: Copy>(answer: Result<T, Refusal>) -> u64
    ensures { result ≡ is.accepted_code answer }
{
    code(answer.map(|_| 0))
}

// The 24 numbers of a state. Functions and no `From`, here and below: the order of the numbers is the C interface's, of which the crates of the records know nothing.
fn numbers(s: GergState) -> [f64; 24]
    ensures { result ≡ is.numbers_of s }
{
    let d = s.derivatives;
    [
        s.temperature_k,
        s.molar_density,
        s.mass_density,
        s.pressure_pa,
        s.compressibility,
        s.dp_drho,
        s.dp_dt,
        s.internal_energy,
        s.enthalpy,
        s.entropy,
        s.cv,
        s.cp,
        s.speed_of_sound,
        s.helmholtz_energy,
        s.gibbs_energy,
        d.ar,
        d.ar_d,
        d.ar_dd,
        d.ar_t,
        d.ar_tt,
        d.ar_dt,
        d.a0,
        d.a0_t,
        d.a0_tt,
    ]
}

// Three of one line each, here and below: one over the type, the size and a closure for the numbers has a longer head than all three have text.
pub fn put_properties(answer: Result<GergState, Refusal>, out: &mut [f64; 24])
    ensures { out.new ≡ is.properties_written answer out.old }
{
    if let Ok(s) = answer {
        *out = numbers(s);
    }
}

// A state's 24 numbers, the residual, the trials, the first bracket, the last bracket.
fn density_numbers(r: DensityResult) -> [f64; 30]
    ensures { result ≡ is.density_numbers r }
{
    let trials = std::num::nearest_usize_to_f64(r.trials);
    let search = [
        r.residual, trials, r.first.lo, r.first.hi, r.last.lo, r.last.hi,
    ];
    let mut all = [0.0; 30];
    all[..24].copy_from_slice(&numbers(r.state));
    all[24..].copy_from_slice(&search);
    all
}

pub fn put_density(answer: Result<DensityResult, Refusal>, out: &mut [f64; 30])
    ensures { out.new ≡ is.density_written answer out.old }
{
    if let Ok(r) = answer {
        *out = density_numbers(r);
    }
}

// Found: 1 beside number 0; not enclosed: 0.
pub fn saturation_code(answer: Result<Option<PureSaturation>, Refusal>) -> u64
    ensures { result ≡ is.saturation_code answer }
{
    code(answer.map(|found| usize::from(found.is_some())))
}

// The nine numbers of a saturation.
fn saturation_numbers(s: PureSaturation) -> [f64; 9]
    ensures { result ≡ is.saturation_numbers s }
{
    let iterations = std::num::nearest_usize_to_f64(s.iterations);
    [
        s.temperature_k,
        s.pressure_pa,
        s.liquid_compressibility,
        s.vapor_compressibility,
        s.liquid_molar_volume,
        s.vapor_molar_volume,
        s.ln_fugacity_coefficient,
        s.fugacity_residual,
        iterations,
    ]
}

pub fn put_saturation(answer: Result<Option<PureSaturation>, Refusal>, out: &mut [f64; 9])
    ensures { out.new ≡ is.saturation_written answer out.old }
{
    if let Ok(Some(s)) = answer {
        *out = saturation_numbers(s);
    }
}
