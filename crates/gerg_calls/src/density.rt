// The call `density`.
ghost use Rattle.std.specs.Prelude.{◌≡◌};
ghost use Rattle.gerg_calls.specs.Calls as is;

use gerg::Range;
use gerg_density::{DensityResult, density};
use gerg_prepared::rows;
use gerg_refusals::Refusal;
use gerg_search::Options;
use gerg_tables::coefficients::Coefficients;

// The density in the bracket of the options at which the mixture has the pressure (Pa) at the temperature (K), in the range.
pub fn density_at(
    file: &[u8],
    list: &[u8],
    fractions: &[f64],
    range: Range,
    t: f64,
    target: f64,
    o: Options,
) -> Result<DensityResult, Refusal>
    ensures { result ≡ is.density_in file.now list.now fractions.now range t target o }
{
    let mut doubles = [0.0; 4086];
    let mut integers = [0u8; 1631];
    let mixed = rows::prepare(file, list, fractions, &mut doubles, &mut integers)?;
    let coefficients = Coefficients {
        doubles: &doubles,
        integers: &integers,
    };
    density::density(coefficients, &mixed.model, range, t, target, o)
}
