// The public calls for C; what is promised of the public calls stands in proofs/Promises.
#![tactic(auto)]

ghost use Rattle.std.specs.Prelude.{◌≡◌};
ghost use Rattle.gerg_calls.specs.Calls.{options_of};

use gerg_search::Options;
use interval::Interval;

pub mod export;
pub mod extended;
pub mod lists;

// What a C caller says of a density search.
fn options(lo: f64, hi: f64, limit: u64, tolerance: f64) -> Options
    ensures { result ≡ options_of lo hi limit tolerance }
{
    let bracket = Interval { lo, hi };
    // A usize has 64 bits, so the cast is exact; std has no `usize::from` of a u64.
    let limit = limit as usize;
    Options {
        bracket,
        limit,
        tolerance,
    }
}
