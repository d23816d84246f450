// An interval of doubles that a search narrows, whether of densities or of temperatures.
#![tactic(auto, unfolding(crate::specs::Interval::narrowed_of, crate::specs::Interval::on_end, numerics::specs::Middle::middle))]

ghost use Rattle.std.specs.Prelude.{◌≡◌};
ghost use Rattle.interval.specs.Interval.{middle_of, narrowed_of, on_end};

// The two ends.
#[derive(Clone, Copy)]
pub struct Interval {
    pub lo: f64,
    pub hi: f64,
}

impl Interval {
    // The low end and half of the width: the sum of the ends could overflow.
    pub fn middle(self) -> f64
        ensures { result ≡ middle_of self }
    {
        self.lo + 0.5 * (self.hi - self.lo)
    }

    pub fn ends_at(self, x: f64) -> bool
        ensures { result ≡ on_end self x }
    {
        (x == self.lo) | (x == self.hi)
    }

    // x takes the place of the low end where the difference is below 0, else of the high end.
    pub fn narrowed(self, x: f64, difference: f64) -> Interval
        ensures { result ≡ narrowed_of self x difference }
    {
        if difference < 0.0 {
            return Interval { lo: x, ..self };
        }
        Interval { hi: x, ..self }
    }
}
