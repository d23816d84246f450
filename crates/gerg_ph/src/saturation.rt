// The saturation temperature: the rows that need no root, the two ends, and the halvings between them.

ghost use Rattle.std.specs.Prelude.{◌≡◌};
ghost use Rattle.gerg_tables.specs.Lent.{lent};
ghost use Rattle.gerg_saturation.specs.Halvings.{halvings_of, search_of};
ghost use Rattle.gerg_ph.specs.Isobars.{verdict_along};
ghost use Rattle.gerg_ph.specs.Saturation.{pure_saturation_of};

use crate::{Isobar, sampling};
use gerg::Range;
use gerg_grid::grid;
use gerg_reducing::lent::Mixture;
use gerg_refusals::Refusal;
use gerg_root_list::envelope;
use gerg_saturation::{
    Answer, Options, PureSaturation, Tried, Verdict, checks, coexistence, halving,
};

#[tactic(auto, unfolding(crate::specs::Saturation::verdict_at, gerg_saturation::specs::Coexistence::tried_of))]
fn verdict_at(isobar: Isobar, temperature: f64) -> Tried
    ensures { result ≡ verdict_along isobar.entry temperature }
{
    coexistence::tried(sampling::sample(isobar, temperature))
}

// The halvings; `trials` counts the middles strictly between the ends.
#[tactic(auto, using(gerg_saturation::proofs::Laws::Halvings::begins, gerg_saturation::proofs::Laws::Halvings::accepted, gerg_saturation::proofs::Laws::Halvings::refused), unfolding(gerg_saturation::specs::Halvings::numbered))]
fn halvings(isobar: Isobar, options: Options) -> Answer
    ensures { result ≡ halvings_of (verdict_along isobar.entry) options.limit options.interval }
{
    let mut b = options.interval;
    let mut trials = 0;
    for k in 0..options.limit {
        let x = b.middle();
        trials = halving::counted(b, trials, x);
        match verdict_at(isobar, x)? {
            Verdict::Accepted(s) => {
                let iterations = k + 1;
                return Ok(Some(PureSaturation { iterations, ..s }));
            }
            Verdict::Apart(difference) => {
                if b.ends_at(x) {
                    return Err(Refusal::SaturationNotConverged { trials });
                }
                b = b.narrowed(x, difference);
            }
        }
    }
    Err(Refusal::SaturationNotConverged { trials })
}

// Both ends before either is accepted, so that a refusal of the high one comes before an accepted low one; then the halvings.
#[tactic(auto, unfolding(gerg_saturation::specs::Halvings::search_of, gerg_saturation::specs::Halvings::ends_of))]
fn search(isobar: Isobar, options: Options) -> Answer
    ensures { result ≡ search_of (verdict_along isobar.entry) options.limit options.interval }
{
    let b = options.interval;
    let low = verdict_at(isobar, b.lo)?;
    let high = verdict_at(isobar, b.hi)?;
    match (low, high) {
        (Verdict::Accepted(s), _) => Ok(Some(s)),
        (_, Verdict::Accepted(s)) => Ok(Some(s)),
        (Verdict::Apart(left), Verdict::Apart(right)) => {
            if (left > 0.0) | (right < 0.0) {
                return Ok(None);
            }
            halvings(isobar, options)
        }
    }
}

// The temperature of the interval at which the fluid of the one positive fraction boils at `pressure`.
pub fn pure_saturation(mixture: Mixture, range: Range, pressure: f64, options: Options) -> Answer
    ensures { result ≡ pure_saturation_of (lent mixture.entry.coefficients) mixture.entry.model.now mixture.entry.gradients.now range pressure
        options.interval.lo options.interval.hi options.limit }
{
    let b = options.interval;
    let model = mixture.model;
    let p = checks::positive(model);
    let unfit = checks::refused(p.count, b);
    let beyond = envelope::beyond_five(model);
    let within = envelope::within_envelope(b.lo, pressure);
    checks::first_row(unfit, beyond, within)?;
    let points = grid::grid();
    let isobar = Isobar {
        mixture,
        grid: &points,
        range,
        place: p.place,
        pressure,
    };
    search(isobar, options)
}
