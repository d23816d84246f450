// What a scan does at a grid point, from the sample there and the crossing before it.
#![tactic(auto, unfolding(crate::specs::Left::before, crate::specs::Scan::begun_at, crate::specs::Scan::noted_of, crate::specs::Scan::moved_of, crate::specs::Scan::rooted_of, crate::specs::Scan::apart))]

ghost use Rattle.std.specs.Prelude.{◌≡◌, ◌<◌};
ghost use Rattle.arrayvec.specs.ArrayVec.{array_vec_len};
ghost use Rattle.gerg_scan_steps.specs.Scan.{begun_at, noted_of, moved_of, rooted_of, densities, apart, rootless};
ghost use Rattle.gerg_scan_steps.specs.Left.{before};

use crate::{Halving, Point, Sample, Scan, Scanned, halve};
use arrayvec::ArrayVec;
use gerg_refusals::Refusal;

// Whether a density is farther from the last root than 1e-8 of itself.
fn is_apart(roots: &[Point], density: f64) -> bool
    ensures { result ≡ apart density (densities roots.now) }
{
    match roots.last() {
        None => true,
        Some(last) => {
            let distance = halve::size(density - last.density);
            1e-8 * density < distance
        }
    }
}

impl Scan {
    // Before any sample.
    pub fn before(first: f64) -> Scan
        ensures { result ≡ before first }
    {
        let infinity = 1.0 / 0.0;
        Scan {
            previous: first,
            left: 0.0,
            first_negative: infinity,
            last_negative: -infinity,
        }
    }

    // The stiffness at the first grid point is not looked at.
    pub fn begun(first: f64, sample: Sample) -> Result<Scan, Refusal>
        ensures { result ≡ begun_at first sample }
    {
        let (left, _) = sample?;
        Ok(Scan {
            left,
            ..Scan::before(first)
        })
    }

    // A point with stiffness ≤ 0.
    pub fn note(&mut self, current: f64, stiffness: f64)
        ensures { self.new ≡ noted_of current stiffness self.old }
    {
        if stiffness <= 0.0 {
            if current < self.first_negative {
                self.first_negative = current;
            }
            self.last_negative = current;
        }
    }

    pub fn go_to(&mut self, current: f64, right: f64)
        ensures { self.new ≡ moved_of current right self.old }
    {
        self.previous = current;
        self.left = right;
    }
}

impl Scanned {
    // With no root.
    pub fn rootless(scan: Scan) -> Scanned
        ensures { result ≡ rootless scan }
    {
        Scanned {
            scan,
            roots: ArrayVec::new(),
        }
    }

    // The best point of a crossing behind the roots.
    pub fn root(&mut self, h: Halving)
        requires { array_vec_len self.old.roots < 386 }
        ensures { self.new ≡ rooted_of h self.old }
    {
        if is_apart(&self.roots, h.best.density) {
            self.roots.push(h.best);
        }
    }
}
