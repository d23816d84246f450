// States by the thousand from one seed: the call `state_at`, and `count_refusals`, which counts over a run of states the numbers under which `properties` refuses.
#![tactic(auto)]

ghost use Rattle.std.specs.Prelude.{◌≡◌};
ghost use Rattle.gerg_states.specs.States as is;

use gerg_refusals::Refusal;

pub mod counts;
pub mod state;

// The states `first`, `first` + 1, .. of a seed, `states` in number.
#[derive(Clone, Copy)]
pub struct Run {
    pub seed: u64,
    pub first: u32,
    pub states: u32,
}

// Number 27.
#[tactic(auto, unfolding(crate::specs::States::seed_refusal))]
fn seed_refusal(seed: u64) -> Result<(), Refusal>
    ensures { result ≡ is.seed_refusal seed }
{
    if seed == 0 {
        return Err(Refusal::ZeroSeed);
    }
    Ok(())
}
