// The call `count_refusals`. The file is read and the mixture prepared once for all states.
#![tactic(auto, unfolding(crate::specs::States::run_refusal, crate::specs::States::counts_written))]

ghost use Rattle.std.specs.Prelude.{◌≡◌, ◌<◌};
ghost use Rattle.gerg_tables.specs.Lent.{lent};
ghost use Rattle.gerg_states.specs.Prepared as from;
ghost use Rattle.gerg_states.specs.States as is;

use crate::{Run, seed_refusal};
use generator::State;
use gerg::{evaluate, helmholtz};
use gerg_prepared::rows;
use gerg_reducing::GergModel;
use gerg_refusals::Refusal;
use gerg_tables::coefficients::Coefficients;

// The number under which a state is refused, 0 where it is accepted.
#[tactic(auto, using(crate::proofs::Laws::Numbers::number_at_most), unfolding(crate::specs::Prepared::number_from))]
fn number_of(coefficients: Coefficients, model: &GergModel, state: State) -> usize
    ensures { (result ≡ from.number_from (lent coefficients.entry) model.now state) × (result < 38) }
{
    let range = helmholtz::normal_range();
    match evaluate::evaluate(coefficients, model, range, state.temperature, state.density) {
        Ok(_) => 0,
        Err(refusal) => usize::from(refusal.number()),
    }
}

fn count_states(coefficients: Coefficients, model: &GergModel, run: Run, out: &mut [u64; 38])
    ensures { out.new ≡ from.counts_from (lent coefficients.entry) model.now run }
{
    let mut g = generator::after(run.seed, 2 * u64::from(run.first));
    *out = [0; 38];
    for _ in 0..run.states {
        let drawn = generator::draw_state(g);
        g = drawn.generator;
        let number = number_of(coefficients, model, drawn.state);
        out[number] += 1;
    }
}

// Of the states of a run, place k gets how many `properties` refuses under number k, place 0 how many it accepts.
pub fn count_refusals(
    file: &[u8],
    list: &[u8],
    fractions: &[f64],
    run: Run,
    out: &mut [u64; 38],
) -> Result<(), Refusal>
    ensures answer { result ≡ is.run_refusal file.now list.now fractions.now run.seed }
    ensures memory { out.new ≡ is.counts_written file.now list.now fractions.now run out.old }
{
    seed_refusal(run.seed)?;
    let mut doubles = [0.0; 4086];
    let mut integers = [0u8; 1631];
    let mixed = rows::prepare(file, list, fractions, &mut doubles, &mut integers)?;
    let coefficients = Coefficients {
        doubles: &doubles,
        integers: &integers,
    };
    count_states(coefficients, &mixed.model, run, out);
    Ok(())
}
