// The exterior roots: the tests that come first, the search, and the answer in lent memory.
#![tactic(auto, unfolding(crate::specs::Roots::searched_of, crate::specs::Roots::roots_of, crate::specs::Roots::roots_memory, gerg_root_list::specs::RootList::found_of, gerg_root_list::specs::RootList::memory_by))]

ghost use Rattle.std.specs.Prelude.{◌≡◌, length};
ghost use Rattle.gerg_tables.specs.Lent.{lent};
ghost use Rattle.gerg_scan_steps.specs.Answers.{leaves};
ghost use Rattle.gerg_grid.specs.Grid.{grid_of};
ghost use Rattle.gerg_flash.specs.Roots as is;
ghost use Rattle.gerg_flash.specs.Left.{searched_left};

use crate::{SoughtRoots, settle};
use gerg::Range;
use gerg_grid::grid;
use gerg_isotherm::lent::Isotherm;
use gerg_reducing::lent::Mixture;
use gerg_refusals::Refusal;
use gerg_root_list::{Roots, answer, envelope};
use gerg_scan::{Sought, sampling};
use gerg_scan_steps::{Scan, Scanned};

// The roots of a pressure at a temperature, which take the place of those in the vector; a refusal leaves those before it. The isotherm
// is worked out once.
pub fn exterior_roots(
    grid: &[f64],
    mixture: Mixture,
    range: Range,
    temperature: f64,
    pressure: f64,
    roots: &mut Roots,
) -> Result<(), Refusal>
    requires { grid.now ≡ grid_of }
    ensures accepted { leaves result roots.new.items ≡ is.searched_of (lent mixture.entry.coefficients) mixture.entry.model.now mixture.entry.gradients.now range temperature pressure }
    ensures left { roots.new.items ≡ searched_left (lent mixture.entry.coefficients) mixture.entry.model.now mixture.entry.gradients.now range temperature pressure }
{
    let mut cells = [0.0; 939];
    let isotherm = Isotherm::of(mixture.coefficients, mixture.model, temperature, &mut cells);
    let densities = Sought {
        isotherm,
        range,
        pressure,
    };
    let mut scanned = Scanned::rootless(Scan::before(0.0));
    roots.clear();
    sampling::scan(grid, densities, &mut scanned)?;
    let sought = SoughtRoots { densities, mixture };
    settle::settle(&scanned, sought, roots)
}

// The roots of the pressure on the two exterior branches. Each writes density, pressure, Z, Gibbs energy and its coefficients to `out`;
// a refusal leaves `out` as lent.
pub fn outer_roots(
    mixture: Mixture,
    range: Range,
    temperature: f64,
    pressure: f64,
    out: &mut [f64],
) -> Result<usize, Refusal>
    ensures answer { result ≡ is.roots_of (lent mixture.entry.coefficients) mixture.entry.model.now mixture.entry.gradients.now range temperature pressure (length out.old) }
    ensures memory { out.new ≡ is.roots_memory (lent mixture.entry.coefficients) mixture.entry.model.now mixture.entry.gradients.now range temperature pressure out.old }
{
    let beyond = envelope::beyond_five(mixture.model);
    let within = envelope::within_envelope(temperature, pressure);
    if beyond {
        return Err(Refusal::BeyondFive);
    }
    if !within {
        return Err(Refusal::OutsideEnvelope);
    }
    let points = grid::grid();
    let mut roots = Roots::new();
    let searched = exterior_roots(&points, mixture, range, temperature, pressure, &mut roots);
    answer::finish(searched, &roots, mixture.model, out)
}
