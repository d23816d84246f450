// The call `properties`.
ghost use Rattle.std.specs.Prelude.{◌≡◌};
ghost use Rattle.gerg_calls.specs.Calls as is;

use gerg::{GergState, Range, evaluate};
use gerg_prepared::rows;
use gerg_refusals::Refusal;
use gerg_tables::coefficients::Coefficients;

// The properties of a mixture at a temperature (K) and a molar density (mol/m³), in the range.
pub fn properties(
    file: &[u8],
    list: &[u8],
    fractions: &[f64],
    range: Range,
    t: f64,
    rho: f64,
) -> Result<GergState, Refusal>
    ensures { result ≡ is.properties_in file.now list.now fractions.now range t rho }
{
    let mut doubles = [0.0; 4086];
    let mut integers = [0u8; 1631];
    let mixed = rows::prepare(file, list, fractions, &mut doubles, &mut integers)?;
    let coefficients = Coefficients {
        doubles: &doubles,
        integers: &integers,
    };
    evaluate::evaluate(coefficients, &mixed.model, range, t, rho)
}
