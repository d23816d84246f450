// The scan over an isotherm: samples, the halving of each crossing, and the loop over the grid.
#![tactic(auto, unfolding(crate::specs::Sampling::sample_of, crate::specs::Sampling::sample_by, crate::specs::Sampling::sample_from, gerg_scan_steps::specs::Scan::crossed_of, gerg_scan_steps::specs::Scan::scan_step, gerg_scan_steps::specs::Scan::seen_of, gerg_scan_steps::specs::Left::step_left, gerg_scan_steps::specs::Left::seen_left, gerg_scan_steps::specs::Scan::noted_of))]

ghost use Rattle.std.specs.Prelude.{◌≡◌, ◌<◌, ◌≤◌, length, OnErr};
ghost use Rattle.arrayvec.specs.ArrayVec.{array_vec_len};
ghost use Rattle.gerg_scan_steps.specs.Answers.{leaves};
ghost use Rattle.gerg_scan_steps.specs.Halving.{tolerance_of, crossing_of};
ghost use Rattle.gerg_scan_steps.specs.Scan.{crossed_of, scan_step, scan_of};
ghost use Rattle.gerg_scan_steps.specs.Left.{step_left, scan_left};
ghost use Rattle.gerg_scan.specs.Sought.{sample_for};

use crate::Sought;
use gerg::{evaluate, helmholtz};
use gerg_refusals::Refusal;
use gerg_scan_steps::{Halving, Point, Sample, Scan, Scanned, halve};
use interval::Interval;

fn sample(sought: Sought, rho: f64) -> Sample
    ensures { result ≡ sample_for sought.entry rho }
{
    let a = helmholtz::helmholtz_at(sought.isotherm, sought.range, rho)?;
    let t = sought.isotherm.temperature;
    let p = evaluate::trial_pressure(a, t, rho);
    Ok((p - sought.pressure, evaluate::stiffness(a, t)))
}

// A crossing between two grid points, halved at most 100 times.
fn crossing(sought: Sought, lo: f64, hi: f64) -> Result<Halving, Refusal>
    ensures { result ≡ crossing_of (sample_for sought.entry) (tolerance_of sought.entry.pressure) lo hi }
{
    let tolerance = halve::tolerance(sought.pressure);
    let mut h = halve::unhalved_between(Interval { lo, hi });
    for _ in 0..100usize {
        if h.stopped {
            return Ok(h);
        }
        let rho = h.ends.middle();
        h = halve::tried(tolerance, h, rho, sample(sought, rho))?;
    }
    Ok(h)
}

// A crossing from the previous grid point to the current one joins the roots. Room is asked for, here and below: it follows from the turns made, which the loop knows and a scan does not.
fn cross(scanned: &mut Scanned, sought: Sought, current: Point) -> Result<(), Refusal>
    requires { array_vec_len scanned.old.roots < 386 }
    ensures accepted { leaves result scanned.new ≡ crossed_of (sample_for sought.entry) sought.entry.pressure current.density current.residual scanned.old }
    ensures refused { OnErr result (scanned.new ≡ scanned.old) }
{
    if (scanned.scan.left <= 0.0) & (current.residual >= 0.0) {
        let h = crossing(sought, scanned.scan.previous, current.density)?;
        scanned.root(h);
    }
    Ok(())
}

// One grid point more. The scan moves to it whether or not its crossing is refused.
fn step(scanned: &mut Scanned, sought: Sought, current: f64) -> Result<(), Refusal>
    requires { array_vec_len scanned.old.roots < 386 }
    ensures accepted { leaves result scanned.new ≡ scan_step (sample_for sought.entry) sought.entry.pressure current scanned.old }
    ensures left { scanned.new ≡ step_left (sample_for sought.entry) sought.entry.pressure current scanned.old }
{
    let (right, stiffness) = sample(sought, current)?;
    scanned.scan.note(current, stiffness);
    let at = Point {
        density: current,
        residual: right,
    };
    let crossed = cross(scanned, sought, at);
    scanned.scan.go_to(current, right);
    crossed
}

// The scan over a grid; a refusal ends it, and leaves the roots found before it.
pub fn scan(grid: &[f64], sought: Sought, scanned: &mut Scanned) -> Result<(), Refusal>
    requires { (0 < length grid.now) × (length grid.now ≤ 386) }
    ensures accepted { leaves result scanned.new ≡ scan_of (sample_for sought.entry) sought.entry.pressure grid.now }
    ensures left { scanned.new ≡ scan_left (sample_for sought.entry) sought.entry.pressure grid.now }
{
    let first = grid[0];
    scanned.roots.clear();
    scanned.scan = Scan::before(first);
    scanned.scan = Scan::begun(first, sample(sought, first))?;
    for point in &grid[1..] {
        step(scanned, sought, *point)?;
    }
    Ok(())
}
