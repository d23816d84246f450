// One halving of a crossing, from the sample at its middle.
#![tactic(auto, unfolding(crate::specs::Halving::size_of, crate::specs::Halving::larger_of, crate::specs::Halving::tolerance_of, crate::specs::Halving::unhalved, crate::specs::Halving::narrowed_of, crate::specs::Halving::tried_of))]

ghost use Rattle.std.specs.Prelude.{◌≡◌};
ghost use Rattle.gerg_scan_steps.specs.Halving.{size_of, larger_of, tolerance_of, narrowed_of, tried_of, unhalved};

use crate::{Halving, Point, Sample};
use gerg_refusals::Refusal;
use interval::Interval;

// Not `abs`: a zero keeps its sign.
pub fn size(x: f64) -> f64
    ensures { result ≡ size_of x }
{
    if x < 0.0 {
        return -x;
    }
    x
}

// b where a is a NaN. Not `f64::max`, which leaves open which of two equal numbers it gives.
pub fn larger(a: f64, b: f64) -> f64
    ensures { result ≡ larger_of a b }
{
    if a > b {
        return a;
    }
    b
}

// The residual that ends a halving.
pub fn tolerance(target: f64) -> f64
    ensures { result ≡ tolerance_of target }
{
    larger(5e-13 * target, 2e-7)
}

// There is no residual yet: each finite one is smaller.
pub fn unhalved_between(ends: Interval) -> Halving
    ensures { result ≡ unhalved ends.lo ends.hi }
{
    Halving {
        ends,
        best: Point {
            density: ends.lo,
            residual: 1.0 / 0.0,
        },
        stopped: false,
    }
}

fn narrowed(tolerance: f64, h: Halving, rho: f64, f: f64) -> Halving
    ensures { result ≡ narrowed_of tolerance h rho f }
{
    let s = size(f);
    let mut after = h;
    after.ends = h.ends.narrowed(rho, f);
    if s < h.best.residual {
        after.best = Point {
            density: rho,
            residual: s,
        };
    }
    after.stopped = (s <= tolerance) | h.ends.ends_at(rho);
    after
}

pub fn tried(tolerance: f64, h: Halving, rho: f64, sample: Sample) -> Result<Halving, Refusal>
    ensures { result ≡ tried_of tolerance h rho sample }
{
    let (residual, _) = sample?;
    Ok(narrowed(tolerance, h, rho, residual))
}
