// The public calls for C: number × 2^32 + value, 0 when accepted; a slice is a pointer and a length.
ghost use Rattle.std.specs.Prelude.{◌≡◌};
ghost use Rattle.gerg_refusals.specs.Code.{code};
ghost use Rattle.gerg_answers.specs.Answers as answers;
ghost use Rattle.gerg_calls.specs.Calls as is;
ghost use Rattle.gerg_equilibrium.specs.Equilibrium as equilibrium;
ghost use Rattle.gerg_states.specs.States as drawn;

use crate::options;
use gerg::helmholtz;
use gerg_calls::{density, fugacity, properties};
use gerg_equilibrium::{roots, saturation};
use gerg_refusals::code::code;
use gerg_states::{Run, counts, state};

#[unsafe(no_mangle)]
pub extern "C" fn gerg_properties(
    file: &[u8],
    list: &[u8],
    fractions: &[f64],
    t: f64,
    rho: f64,
    out: &mut [f64; 24],
) -> u64
    ensures answer { result ≡ answers.accepted_code (is.properties_of file.now list.now fractions.now t rho) }
    ensures memory { out.new ≡ answers.properties_written (is.properties_of file.now list.now fractions.now t rho) out.old }
{
    let range = helmholtz::normal_range();
    let answer = properties::properties(file, list, fractions, range, t, rho);
    gerg_answers::put_properties(answer, out);
    gerg_answers::accepted_code(answer)
}

#[unsafe(no_mangle)]
pub extern "C" fn gerg_fugacity(
    file: &[u8],
    list: &[u8],
    fractions: &[f64],
    t: f64,
    rho: f64,
    out: &mut [f64],
) -> u64
    ensures answer { result ≡ answers.accepted_code (is.fugacity_answer file.now list.now fractions.now t rho out.old) }
    ensures memory { out.new ≡ is.fugacity_written file.now list.now fractions.now t rho out.old }
{
    let range = helmholtz::normal_range();
    let answer = fugacity::fugacity_at(file, list, fractions, range, t, rho, out);
    gerg_answers::accepted_code(answer)
}

#[unsafe(no_mangle)]
pub extern "C" fn gerg_density(
    file: &[u8],
    list: &[u8],
    fractions: &[f64],
    t: f64,
    target: f64,
    lo: f64,
    hi: f64,
    limit: u64,
    tolerance: f64,
    out: &mut [f64; 30],
) -> u64
    ensures answer { result ≡ answers.accepted_code (is.density_call file.now list.now fractions.now t target (is.options_of lo hi limit tolerance)) }
    ensures memory { out.new ≡ answers.density_written (is.density_call file.now list.now fractions.now t target (is.options_of lo hi limit tolerance)) out.old }
{
    let o = options(lo, hi, limit, tolerance);
    let range = helmholtz::normal_range();
    let answer = density::density_at(file, list, fractions, range, t, target, o);
    gerg_answers::put_density(answer, out);
    gerg_answers::accepted_code(answer)
}

#[unsafe(no_mangle)]
pub extern "C" fn gerg_outer_roots(
    file: &[u8],
    list: &[u8],
    fractions: &[f64],
    t: f64,
    p: f64,
    out: &mut [f64],
) -> u64
    ensures answer { result ≡ code (equilibrium.roots_call file.now list.now fractions.now t p out.old) }
    ensures memory { out.new ≡ equilibrium.roots_written file.now list.now fractions.now t p out.old }
{
    let answer = roots::outer_roots(file, list, fractions, t, p, out);
    code(answer)
}

#[unsafe(no_mangle)]
pub extern "C" fn gerg_pure_saturation(
    file: &[u8],
    list: &[u8],
    fractions: &[f64],
    p: f64,
    lo: f64,
    hi: f64,
    limit: u64,
    out: &mut [f64; 9],
) -> u64
    ensures answer { result ≡ answers.saturation_code (equilibrium.saturation_call file.now list.now fractions.now p lo hi limit) }
    ensures memory { out.new ≡ answers.saturation_written (equilibrium.saturation_call file.now list.now fractions.now p lo hi limit) out.old }
{
    // A usize has 64 bits, so the cast is exact; std has no `usize::from` of a u64.
    let limit = limit as usize;
    let answer = saturation::pure_saturation(file, list, fractions, p, lo, hi, limit);
    gerg_answers::put_saturation(answer, out);
    gerg_answers::saturation_code(answer)
}

#[unsafe(no_mangle)]
pub extern "C" fn gerg_state_at(seed: u64, n: u32, out: &mut [f64; 2]) -> u64
    ensures answer { result ≡ answers.accepted_code (drawn.seed_refusal seed) }
    ensures memory { out.new ≡ drawn.state_written seed n out.old }
{
    let answer = state::state_at(seed, n, out);
    gerg_answers::accepted_code(answer)
}

#[unsafe(no_mangle)]
pub extern "C" fn gerg_count_refusals(
    file: &[u8],
    list: &[u8],
    fractions: &[f64],
    seed: u64,
    first: u32,
    states: u32,
    out: &mut [u64; 38],
) -> u64
    ensures answer { result ≡ answers.accepted_code (drawn.run_refusal file.now list.now fractions.now seed) }
    ensures memory { out.new ≡ drawn.counts_written file.now list.now fractions.now (drawn.run_of seed first states) out.old }
{
    let run = Run {
        seed,
        first,
        states,
    };
    let answer = counts::count_refusals(file, list, fractions, run, out);
    gerg_answers::accepted_code(answer)
}
