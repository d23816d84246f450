// The rows that need no root: 25, which wants one positive fraction and ends that rise, and those that follow it.

ghost use Rattle.std.specs.Prelude.{◌≡◌, ◌+◌, ◌^◌, ◌<◌, Err};
ghost use Rattle.std.specs.Float.Ieee.{lt};
ghost use Rattle.numerics.specs.Double.{+0, pick};
ghost use Rattle.gerg_reducing.specs.Listed.{Listed};
ghost use Rattle.gerg_refusals.specs.Answer.{passed};
ghost use Rattle.gerg_refusals.specs.declared.Refusal.TheVariants as refusal;
ghost use Rattle.gerg_saturation.specs.Checks.{positive_fractions, positive_place, refused_by};

use crate::Positive;
use gerg_reducing::GergModel;
use gerg_refusals::Refusal;
use gerg_tables::numbers::is_finite;
use interval::Interval;

// The fraction at place k joins the positive ones if it is one.
fn joined(p: Positive, k: usize, fraction: f64) -> Positive
    requires { p.count + 1 < 2 ^ 64 }
    ensures { (result.count ≡ pick (lt +0 fraction) (p.count + 1) p.count) × (result.place ≡ pick (lt +0 fraction) k p.place) }
{
    if fraction > 0.0 {
        return Positive {
            count: p.count + 1,
            place: k,
        };
    }
    p
}

// The positive fractions of the list.
#[tactic(auto, using(numerics::specs::Double::pick, numerics::specs::Iterate::iter_begins, numerics::specs::Iterate::iter_turn, numerics::specs::Iterate::iter_done), unfolding(crate::specs::Checks::positive_fractions, crate::specs::Checks::positive_place, crate::specs::Checks::fraction_at))]
pub fn positive(model: &GergModel) -> Positive
    requires { Listed model.now }
    ensures { (result.count ≡ positive_fractions model.now) × (result.place ≡ positive_place model.now) × (result.place < 21) }
{
    let mut p = Positive { count: 0, place: 0 };
    let listed = &model.component_indices[..model.components];
    for (k, index) in listed.iter().enumerate() {
        p = joined(p, k, model.fractions[usize::from(*index)]);
    }
    p
}

// Row 25, of the number of positive fractions and the ends.
#[tactic(auto, unfolding(crate::specs::Checks::refused_by))]
pub fn refused(n: usize, b: Interval) -> bool
    ensures { result ≡ refused_by n b.lo b.hi }
{
    !(n == 1) | !is_finite(b.lo) | !is_finite(b.hi) | !(b.lo < b.hi)
}

// The rows that refuse before a root is sought: 25, 20, then 21 at the low end.
pub fn first_row(unfit: bool, beyond: bool, within: bool) -> Result<(), Refusal>
    ensures { result ≡ pick unfit (Err refusal.NotPure) (pick beyond (Err refusal.BeyondFive) (pick within passed (Err refusal.OutsideEnvelope))) }
{
    if unfit {
        return Err(Refusal::NotPure);
    }
    if beyond {
        return Err(Refusal::BeyondFive);
    }
    if within {
        return Ok(());
    }
    Err(Refusal::OutsideEnvelope)
}
