// The test for a finite double.
ghost use Rattle.std.specs.Prelude.{◌≡◌};
ghost use Rattle.std.specs.Float.Ieee.Scale.{finite};

// std's test, under a clause by `finite`, of which the definitions of every layer speak: std's own speaks of another, which is shown to be the same.
#[tactic(auto, using(crate::proofs::Finite::is_finite))]
pub fn is_finite(x: f64) -> bool
    ensures { result ≡ finite x }
{
    x.is_finite()
}
