// The call `pure_saturation`.
ghost use Rattle.std.specs.Prelude.{◌≡◌};
ghost use Rattle.gerg_equilibrium.specs.Equilibrium as is;

use gerg::helmholtz;
use gerg_ph::saturation;
use gerg_prepared::rows;
use gerg_reducing::lent::Mixture;
use gerg_refusals::Refusal;
use gerg_saturation::{Options, PureSaturation};
use gerg_tables::coefficients::Coefficients;
use interval::Interval;

// The temperature from lo to hi (K) at which the two exterior roots of the pressure (Pa) have one fugacity coefficient, at most `limit` trials between the ends;
// none where the ends enclose none.
pub fn pure_saturation(
    file: &[u8],
    list: &[u8],
    fractions: &[f64],
    target: f64,
    lo: f64,
    hi: f64,
    limit: usize,
) -> Result<Option<PureSaturation>, Refusal>
    ensures { result ≡ is.saturation_call file.now list.now fractions.now target lo hi limit }
{
    let mut doubles = [0.0; 4086];
    let mut integers = [0u8; 1631];
    let mixed = rows::prepare(file, list, fractions, &mut doubles, &mut integers)?;
    let coefficients = Coefficients {
        doubles: &doubles,
        integers: &integers,
    };
    let mixture = Mixture {
        coefficients,
        model: &mixed.model,
        gradients: &mixed.gradients,
    };
    let interval = Interval { lo, hi };
    let options = Options { interval, limit };
    saturation::pure_saturation(mixture, helmholtz::normal_range(), target, options)
}
