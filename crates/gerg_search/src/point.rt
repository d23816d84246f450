// The next density of a bracket.
#![tactic(auto, unfolding(crate::specs::Point::inside_of, crate::specs::Point::next_of, crate::specs::Point::collapsed_at, crate::specs::Point::within_of))]

ghost use Rattle.std.specs.Prelude.{◌≡◌};
ghost use Rattle.gerg_search.specs.Point.{inside_of, next_of, collapsed_at, within_of};

use interval::Interval;

// Whether x lies strictly inside by a tenth of the width.
pub fn inside(b: Interval, x: f64) -> bool
    ensures { result ≡ inside_of b x }
{
    let margin = 0.1 * (b.hi - b.lo);
    (x > b.lo + margin) & (x < b.hi - margin)
}

// Newton's point from rho where it lies inside, else the middle.
pub fn next(b: Interval, rho: f64, f: f64, derivative: f64) -> f64
    ensures { result ≡ next_of b rho f derivative }
{
    let newton = rho - f / derivative;
    if inside(b, newton) {
        return newton;
    }
    b.middle()
}

// Whether the next point is not strictly between the ends.
pub fn collapsed(b: Interval, x: f64) -> bool
    ensures { result ≡ collapsed_at b x }
{
    (x <= b.lo) | (x >= b.hi)
}

// Whether a residual is within the tolerance.
#[tactic(auto, using(crate::proofs::Size::size_within), unfolding(crate::specs::Point::within_of))]
pub fn within(tolerance: f64, f: f64) -> bool
    ensures { result ≡ within_of tolerance f }
{
    f.abs() <= tolerance
}
