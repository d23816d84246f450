// The call `fugacity`. Nothing is written to the lent doubles before the last test has passed.
ghost use Rattle.std.specs.Prelude.{◌≡◌};
ghost use Rattle.gerg_tables.specs.Lent.{lent};
ghost use Rattle.gerg_calls.specs.Calls as is;

use gerg::{GergState, Range, evaluate};
use gerg_fugacity::fugacity;
use gerg_prepared::rows;
use gerg_reducing::lent::Mixture;
use gerg_refusals::Refusal;
use gerg_tables::coefficients::Coefficients;

// Row 24, then the state and its coefficients.
fn after_rows(
    mixture: Mixture,
    range: Range,
    t: f64,
    rho: f64,
    out: &mut [f64],
) -> Result<GergState, Refusal>
    ensures answer { result ≡ is.fugacity_from (lent mixture.entry.coefficients) mixture.entry.model.now mixture.entry.gradients.now range t rho out.old }
    ensures memory { out.new ≡ is.memory_from (lent mixture.entry.coefficients) mixture.entry.model.now mixture.entry.gradients.now range t rho out.old }
{
    let needed = mixture.model.components;
    if out.len() < needed {
        return Err(Refusal::TooShort { needed });
    }
    let state = evaluate::evaluate(mixture.coefficients, mixture.model, range, t, rho)?;
    fugacity::fugacity(mixture, state, t, rho, out)?;
    Ok(state)
}

// ln φ of each listed component at a state of the range, in list order, into the first places of `out`; the state is answered too.
pub fn fugacity_at(
    file: &[u8],
    list: &[u8],
    fractions: &[f64],
    range: Range,
    t: f64,
    rho: f64,
    out: &mut [f64],
) -> Result<GergState, Refusal>
    ensures answer { result ≡ is.fugacity_in file.now list.now fractions.now range t rho out.old }
    ensures memory { out.new ≡ is.fugacity_written_in file.now list.now fractions.now range t rho out.old }
{
    let mut doubles = [0.0; 4086];
    let mut integers = [0u8; 1631];
    let mixed = rows::prepare(file, list, fractions, &mut doubles, &mut integers)?;
    let coefficients = Coefficients {
        doubles: &doubles,
        integers: &integers,
    };
    let mixture = Mixture {
        coefficients,
        model: &mixed.model,
        gradients: &mixed.gradients,
    };
    after_rows(mixture, range, t, rho, out)
}
