// From the roots that a scan found to those that are kept, with their states and fugacity coefficients.
#![tactic(auto, unfolding(crate::specs::Roots::head_of, crate::specs::Roots::checked_of, crate::specs::Roots::state_of, crate::specs::Roots::root_at, gerg_root_list::specs::RootList::joined_by, gerg_root_list::specs::RootList::keep_step))]

ghost use Rattle.std.specs.Prelude.{◌≡◌, ◌<◌, OnErr};
ghost use Rattle.arrayvec.specs.ArrayVec.{array_vec_len};
ghost use Rattle.gerg_scan_steps.specs.Answers.{leaves};
ghost use Rattle.gerg_root_list.specs.RootList as is;
ghost use Rattle.gerg_root_list.specs.Left.{left_of};
ghost use Rattle.gerg_flash.specs.SoughtRoots.{root_for};

use crate::SoughtRoots;
use gerg::evaluate;
use gerg_fugacity::fugacity;
use gerg_refusals::Refusal;
use gerg_root_list::{Root, Roots, answer};
use gerg_scan_steps::{Point, Scan, Scanned};

// The state at a root's density, then its fugacity coefficients.
fn root(sought: SoughtRoots, rho: f64) -> Result<Root, Refusal>
    ensures { result ≡ root_for sought.entry rho }
{
    let isotherm = sought.densities.isotherm;
    let t = isotherm.temperature;
    let state = evaluate::evaluate_at(isotherm, sought.densities.range, rho)?;
    let mut coefficients = [0.0; 21];
    fugacity::fugacity(sought.mixture, state, t, rho, &mut coefficients)?;
    Ok(Root {
        head: [
            rho,
            state.pressure_pa,
            state.compressibility,
            state.gibbs_energy,
        ],
        coefficients,
    })
}

// One root of the scan.
fn keep(roots: &mut Roots, scan: Scan, sought: SoughtRoots, found: Point) -> Result<(), Refusal>
    requires { array_vec_len roots.old < 386 }
    ensures accepted { leaves result roots.new.items ≡ is.keep_step (root_for sought.entry) sought.entry.densities.pressure scan.first_negative scan.last_negative found roots.old.items }
    ensures refused { OnErr result (roots.new.items ≡ roots.old.items) }
{
    if (scan.first_negative < found.density) & (found.density < scan.last_negative) {
        return Ok(());
    }
    if found.residual > answer::limit(sought.densities.pressure) {
        return Err(Refusal::RootNotConverged);
    }
    roots.push(root(sought, found.density)?);
    Ok(())
}

// All roots of a scan, in order; a refusal leaves those before it.
pub fn settle(scanned: &Scanned, sought: SoughtRoots, roots: &mut Roots) -> Result<(), Refusal>
    ensures accepted { leaves result roots.new.items ≡ is.kept_of (root_for sought.entry) sought.entry.densities.pressure scanned.now }
    ensures left { roots.new.items ≡ left_of (root_for sought.entry) sought.entry.densities.pressure scanned.now }
{
    roots.clear();
    for found in scanned.roots.iter() {
        keep(roots, scanned.scan, sought, *found)?;
    }
    Ok(())
}
