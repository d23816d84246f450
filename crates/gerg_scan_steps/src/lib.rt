// The steps of a scan over the grid and of the halving of a crossing, from the samples: all of a scan that looks at no isotherm.
#![tactic(auto)]

pub mod halve;
pub mod scanning;

use arrayvec::ArrayVec;
use gerg_refusals::Refusal;
use interval::Interval;

// At a density: the pressure less the target, and the stiffness; or the refusal. Not `gerg_search::Sample`, whose two numbers are scaled.
pub type Sample = Result<(f64, f64), Refusal>;

// A crossing that is being halved: its ends, the point with the smallest residual so far, and whether it has ended. A flag: the other fields
// say the same of a crossing that has ended, and an enum would hold them twice.
#[derive(Clone, Copy)]
pub struct Halving {
    pub ends: Interval,
    pub best: Point,
    pub stopped: bool,
}

// A density, and the residual there: the pressure less the one sought.
#[derive(Clone, Copy, Default)]
pub struct Point {
    pub density: f64,
    pub residual: f64,
}

// What a scan knows at a grid point, beside its roots: the last point and the residual there, the first and the last point with stiffness ≤ 0. Where there is
// no such point the two are infinities, the first above the last: no density lies between them, and no `Option` is opened for each root.
#[derive(Clone, Copy)]
pub struct Scan {
    pub previous: f64,
    pub left: f64,
    pub first_negative: f64,
    pub last_negative: f64,
}

// A scan and the roots found, at most one for each grid point.
#[derive(Drop)]
pub struct Scanned {
    pub scan: Scan,
    pub roots: ArrayVec<Point, 386>,
}
