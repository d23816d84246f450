// The call `state_at`.
#![tactic(auto, unfolding(crate::specs::States::state_written))]

ghost use Rattle.std.specs.Prelude.{◌≡◌};
ghost use Rattle.gerg_states.specs.States as is;

use crate::seed_refusal;
use gerg_refusals::Refusal;

// Temperature (K) and molar density (mol/m³) of state n of a seed. Only draws are made: the equations are worked out for no state.
pub fn state_at(seed: u64, n: u32, out: &mut [f64; 2]) -> Result<(), Refusal>
    ensures answer { result ≡ is.seed_refusal seed }
    ensures memory { out.new ≡ is.state_written seed n out.old }
{
    seed_refusal(seed)?;
    let state = generator::state_at(seed, n);
    *out = [state.temperature, state.density];
    Ok(())
}
