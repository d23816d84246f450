// The reducing volume and temperature: what each pair adds.
// A place stays a usize with its bound in the clause: loops and readers have it so, and a type of places would be made and taken apart at each call.
ghost use Rattle.std.specs.Prelude.{◌≡◌, ◌<◌};
ghost use Rattle.gerg_reducing.specs.Reducing.{row_of, bij, gij, weight, reducing_pair, reducing_row, reducing};

use crate::Reduced;
use gerg_tables::named;

// b of the pair i, j, and its weight: g, doubled for i ≠ j.
#[tactic(auto, unfolding(crate::specs::Reducing::bij, crate::specs::Reducing::gij, crate::specs::Reducing::weight))]
pub fn b_and_weight(doubles: &[f64; 4086], reduced: Reduced, i: usize, j: usize) -> (f64, f64)
    requires { (i < 21) × (j < 21) }
    ensures b { result.0 ≡ bij doubles.now (row_of reduced) i j }
    ensures weight { result.1 ≡ weight doubles.now (row_of reduced) i j }
{
    let (b, g) = match reduced {
        Reduced::Volume => (named::bvij(doubles, i, j), named::gvij(doubles, i, j)),
        Reduced::Temperature => (named::btij(doubles, i, j), named::gtij(doubles, i, j)),
    };
    if i == j {
        return (b, 1.0 * g);
    }
    (b, 2.0 * g)
}

// The tables, the fractions, which value and the pair stay parameters, here and in the gradients: beside the bounds of the pair nothing ties them, and
// the fields of a struct make each clause longer.
#[tactic(auto, unfolding(crate::specs::Reducing::reducing_pair))]
fn reducing_pair(
    doubles: &[f64; 4086],
    x: &[f64; 21],
    reduced: Reduced,
    i: usize,
    j: usize,
    value: f64,
) -> f64
    requires { (i < 21) × (j < 21) }
    ensures { result ≡ reducing_pair doubles.now x.now (row_of reduced) i j value }
{
    let xi = x[i];
    let xj = x[j];
    if (xi + xj == 0.0) | (xi == 0.0) | (xj == 0.0) {
        return value;
    }
    let (b, weight) = b_and_weight(doubles, reduced, i, j);
    value + weight * (xi * xj * (xi + xj) / (b * xi + xj))
}

#[tactic(auto, using(numerics::specs::Iterate::range_begins, numerics::specs::Iterate::range_turn, numerics::specs::Iterate::range_done), unfolding(crate::specs::Reducing::reducing_row))]
fn reducing_row(doubles: &[f64; 4086], x: &[f64; 21], reduced: Reduced, i: usize, value: f64) -> f64
    requires { i < 21 }
    ensures { result ≡ reducing_row doubles.now x.now (row_of reduced) i value }
{
    let mut sum = value;
    for j in i..21 {
        sum = reducing_pair(doubles, x, reduced, i, j, sum);
    }
    sum
}

#[tactic(auto, using(numerics::specs::Iterate::iter_begins, numerics::specs::Iterate::iter_turn, numerics::specs::Iterate::iter_done), unfolding(crate::specs::Reducing::reducing))]
pub fn reducing(doubles: &[f64; 4086], x: &[f64; 21], reduced: Reduced) -> f64
    ensures { result ≡ reducing doubles.now x.now (row_of reduced) }
{
    let mut sum = 0.0;
    for i in 0..21 {
        sum = reducing_row(doubles, x, reduced, i, sum);
    }
    sum
}
