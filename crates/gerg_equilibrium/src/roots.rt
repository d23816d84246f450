// The call `outer_roots`.
ghost use Rattle.std.specs.Prelude.{◌≡◌};
ghost use Rattle.gerg_equilibrium.specs.Equilibrium as is;

use gerg::helmholtz;
use gerg_flash::roots;
use gerg_prepared::rows;
use gerg_reducing::lent::Mixture;
use gerg_refusals::Refusal;
use gerg_tables::coefficients::Coefficients;

// The roots of the pressure (Pa) on the two exterior branches at a temperature: of each its density, pressure, Z, Gibbs energy and ln φ
// of each listed component, in list order, into the first places of `out`.
pub fn outer_roots(
    file: &[u8],
    list: &[u8],
    fractions: &[f64],
    t: f64,
    target: f64,
    out: &mut [f64],
) -> Result<usize, Refusal>
    ensures answer { result ≡ is.roots_call file.now list.now fractions.now t target out.old }
    ensures memory { out.new ≡ is.roots_written file.now list.now fractions.now t target out.old }
{
    let mut doubles = [0.0; 4086];
    let mut integers = [0u8; 1631];
    let mixed = rows::prepare(file, list, fractions, &mut doubles, &mut integers)?;
    let coefficients = Coefficients {
        doubles: &doubles,
        integers: &integers,
    };
    let mixture = Mixture {
        coefficients,
        model: &mixed.model,
        gradients: &mixed.gradients,
    };
    roots::outer_roots(mixture, helmholtz::normal_range(), t, target, out)
}
