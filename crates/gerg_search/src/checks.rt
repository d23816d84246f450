// What is tested before any density is tried (rows 13 and 14).
#![tactic(auto, unfolding(crate::specs::Checks::options_refused, crate::specs::Checks::target_refused))]

ghost use Rattle.std.specs.Prelude.{◌≡◌};
ghost use Rattle.gerg_search.specs.Checks.{options_refused, target_refused};

use crate::Options;
use gerg_tables::numbers::is_finite;

// Row 13: the bracket, the limit or the tolerance.
pub fn options_refused(o: Options) -> bool
    ensures { result ≡ options_refused o }
{
    let b = o.bracket;
    !is_finite(b.lo)
        | !is_finite(b.hi)
        | (b.lo >= b.hi)
        | (b.lo < 1e-3)
        | (b.hi > 30000.0)
        | (o.limit == 0)
        | !is_finite(o.tolerance)
        | (o.tolerance <= 0.0)
        | (o.tolerance > 1e-7)
}

// Row 14: the target pressure; `high` is the pressure end of the range.
pub fn target_refused(high: f64, target: f64) -> bool
    ensures { result ≡ target_refused high target }
{
    !is_finite(target) | (target <= 0.0) | (target > high)
}
