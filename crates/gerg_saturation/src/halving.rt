// What a halving of an interval of temperatures says of its point.
#![tactic(auto, unfolding(crate::specs::Halvings::between_of))]

ghost use Rattle.std.specs.Prelude.{◌≡◌, ◌+◌, ◌^◌, ◌<◌};
ghost use Rattle.numerics.specs.Double.{pick};
ghost use Rattle.gerg_saturation.specs.Halvings.{between_of};

use interval::Interval;

// Strictly between the ends.
fn has_between(b: Interval, x: f64) -> bool
    ensures { result ≡ between_of b x }
{
    (b.lo < x) & (x < b.hi)
}

// The trials with a point x: strictly between the ends it is one, on an end it is none.
pub fn counted(b: Interval, trials: usize, x: f64) -> usize
    requires { trials + 1 < 2 ^ 64 }
    ensures { result ≡ pick (between_of b x) (trials + 1) trials }
{
    if has_between(b, x) {
        return trials + 1;
    }
    trials
}
