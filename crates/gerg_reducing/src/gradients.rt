// The gradients of the reducing values by mole fraction: what each pair adds to its two elements.
// A place stays a usize with its bound in the clause: loops and readers have it so, and a type of places would be made and taken apart at each call.
ghost use Rattle.std.specs.Prelude.{◌≡◌, ◌<◌};
ghost use Rattle.gerg_reducing.specs.Reducing.{row_of, bumped, first_part, second_part, gradient_pair, gradient_row, gradient_of, gradients_of};

use crate::Reduced;
use crate::reducing::b_and_weight;

// v added to element i.
#[tactic(auto, unfolding(crate::specs::Reducing::bumped))]
fn bump(gradient: &mut [f64; 21], i: usize, v: f64)
    requires { i < 21 }
    ensures { gradient.new ≡ bumped i v gradient.old }
{
    gradient[i] += v;
}

#[tactic(auto, unfolding(crate::specs::Reducing::first_part))]
fn first_part(w: f64, b: f64, xi: f64, xj: f64) -> f64
    ensures { result ≡ first_part w b xi xj }
{
    let denominator = b * xi + xj;
    let quotient = xi * xj * (xi + xj) / denominator;
    w * (xj * (2.0 * xi + xj) - b * quotient) / denominator
}

#[tactic(auto, unfolding(crate::specs::Reducing::second_part))]
fn second_part(w: f64, b: f64, xi: f64, xj: f64) -> f64
    ensures { result ≡ second_part w b xi xj }
{
    let denominator = b * xi + xj;
    let quotient = xi * xj * (xi + xj) / denominator;
    w * (xi * (xi + 2.0 * xj) - quotient) / denominator
}

// What a pair adds. For a subnormal x_i beside a zero b x_i may be 0, so the limits stand in for 0 / 0.
#[tactic(auto, unfolding(crate::specs::Reducing::gradient_pair))]
fn gradient_pair(
    doubles: &[f64; 4086],
    x: &[f64; 21],
    reduced: Reduced,
    i: usize,
    j: usize,
    gradient: &mut [f64; 21],
)
    requires { (i < 21) × (j < 21) }
    ensures { gradient.new ≡ gradient_pair doubles.now x.now (row_of reduced) i j gradient.old }
{
    let xi = x[i];
    let xj = x[j];
    if xi + xj == 0.0 {
        return;
    }
    let (b, w) = b_and_weight(doubles, reduced, i, j);
    if xj == 0.0 {
        bump(gradient, j, w * xi / b);
        return;
    }
    if xi == 0.0 {
        bump(gradient, i, w * xj);
        return;
    }
    bump(gradient, i, first_part(w, b, xi, xj));
    bump(gradient, j, second_part(w, b, xi, xj));
}

#[tactic(auto, using(numerics::specs::Iterate::range_begins, numerics::specs::Iterate::range_turn, numerics::specs::Iterate::range_done), unfolding(crate::specs::Reducing::gradient_row))]
fn gradient_row(
    doubles: &[f64; 4086],
    x: &[f64; 21],
    reduced: Reduced,
    i: usize,
    gradient: &mut [f64; 21],
)
    requires { i < 21 }
    ensures { gradient.new ≡ gradient_row doubles.now x.now (row_of reduced) i gradient.old }
{
    for j in i..21 {
        gradient_pair(doubles, x, reduced, i, j, gradient);
    }
}

#[tactic(auto, using(numerics::specs::Iterate::iter_begins, numerics::specs::Iterate::iter_turn, numerics::specs::Iterate::iter_done), unfolding(crate::specs::Reducing::gradient_of))]
fn gradient(doubles: &[f64; 4086], x: &[f64; 21], reduced: Reduced) -> [f64; 21]
    ensures { result ≡ gradient_of doubles.now x.now (row_of reduced) }
{
    let mut h = [0.0; 21];
    for i in 0..21 {
        gradient_row(doubles, x, reduced, i, &mut h);
    }
    h
}

// The gradients of the reducing volume and of the reducing temperature.
#[tactic(auto, unfolding(crate::specs::Reducing::gradients_of))]
pub fn gradients(doubles: &[f64; 4086], x: &[f64; 21]) -> [[f64; 21]; 2]
    ensures { result ≡ gradients_of doubles.now x.now }
{
    let volume = gradient(doubles, x, Reduced::Volume);
    let temperature = gradient(doubles, x, Reduced::Temperature);
    [volume, temperature]
}
