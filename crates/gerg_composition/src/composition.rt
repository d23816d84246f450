// The composition derivative of the residual Helmholtz energy at fixed delta and tau, absent species included.
// A place stays a usize with its bound in the clause: loops and readers have it so, and a type of places would be made and taken apart at each call.
ghost use Rattle.std.specs.Prelude.{◌≡◌, ◌<◌};
ghost use Rattle.gerg_tables.specs.Lent.{lent};
ghost use Rattle.gerg_composition.specs.Composition as is;
ghost use Rattle.gerg_composition.specs.Powers.{damping_exponent};

use crate::point::Point;
use crate::powers::{Dampings, Powers};
use crate::{Both, Pair, PairFunction, powers};
use elementary::power;
use elementary_exp::exp::exp;
use elementary_ln::ln::ln;
use gerg_tables::coefficients::Coefficients;
use gerg_tables::named;

// The exponent of delta in the damping of term k of component i, past its polynomial terms.
fn damping_exponent(integers: &[u8; 1631], i: usize, k: usize) -> Option<u8>
    requires { (i < 21) × (k < 24) }
    ensures { result ≡ damping_exponent integers.now i k }
{
    if usize::from(named::kpol(integers, i)) <= k {
        return Some(named::coik(integers, i, k));
    }
    None
}

// The tables, the fractions and the point stay parameters, here and below: no fact ties them, and as fields of one struct they make each clause longer.

#[tactic(auto, using(elementary::proofs::Laws::powf_from_ln, crate::proofs::Laws::damping_picked), unfolding(crate::specs::Composition::pure_term))]
fn pure_term(coefficients: Coefficients, point: Point, i: usize, k: usize) -> f64
    requires { (i < 21) × (k < 24) }
    ensures { result ≡ is.pure_term (lent coefficients.entry) point.entry.powers.delta point.entry.tau i k }
{
    let n = named::noik(coefficients.doubles, i, k);
    let d = point.powers.power(named::doik(coefficients.integers, i, k));
    let exponent = named::toik(coefficients.doubles, i, k);
    let power = power::powf_of_ln(point.tau, point.ln_tau, exponent);
    let damping = point
        .dampings
        .damping(damping_exponent(coefficients.integers, i, k));
    n * d * power * damping
}

#[tactic(auto, using(numerics::specs::Iterate::iter_begins, numerics::specs::Iterate::iter_turn, numerics::specs::Iterate::iter_done), unfolding(crate::specs::Composition::pure_terms))]
fn pure_terms(coefficients: Coefficients, point: Point, i: usize, g: f64) -> f64
    requires { i < 21 }
    ensures { result ≡ is.pure_terms (lent coefficients.entry) point.entry.powers.delta point.entry.tau i g }
{
    let n = coefficients.pure_terms(i);
    let mut sum = g;
    for k in 0..n {
        sum = sum + pure_term(coefficients, point, i, k);
    }
    sum
}

#[tactic(auto, unfolding(crate::specs::Composition::departure_exponent))]
fn departure_exponent(coefficients: Coefficients, delta: f64, m: usize, k: usize) -> f64
    requires { (m < 10) × (k < 12) }
    ensures { result ≡ is.departure_exponent (lent coefficients.entry) delta m k }
{
    if usize::from(named::kpolij(coefficients.integers, m)) <= k {
        let c = named::cijk(coefficients.doubles, m, k);
        let e = named::eijk(coefficients.doubles, m, k);
        let g = named::gijk(coefficients.doubles, m, k);
        return c * delta * delta + e * delta + g;
    }
    0.0
}

#[tactic(auto, using(elementary::proofs::Laws::powf_from_ln), unfolding(crate::specs::Composition::departure_term))]
fn departure_term(coefficients: Coefficients, point: Point, function: PairFunction, k: usize) -> f64
    requires { k < 12 }
    ensures { result ≡ is.departure_term (lent coefficients.entry) point.entry.powers.delta point.entry.tau function.pair.i function.pair.j function.m k }
{
    let m = function.m;
    let f = named::fij(coefficients.doubles, function.pair.i, function.pair.j);
    let n = named::nijk(coefficients.doubles, m, k);
    let d = point.powers.power(named::dijk(coefficients.integers, m, k));
    let exponent = named::tijk(coefficients.doubles, m, k);
    let power = power::powf_of_ln(point.tau, point.ln_tau, exponent);
    f * n * d * power * exp(departure_exponent(coefficients, point.powers.delta, m, k))
}

#[tactic(auto, unfolding(crate::specs::Composition::departure_step))]
fn departure_step(
    coefficients: Coefficients,
    point: Point,
    function: PairFunction,
    k: usize,
    both: Both,
) -> Both
    requires { k < 12 }
    ensures { result ≡ is.departure_step (lent coefficients.entry) function.pair point.entry.powers.delta point.entry.tau function.m k both }
{
    let term = departure_term(coefficients, point, function, k);
    Both {
        first: both.first + function.pair.xj * term,
        second: both.second + function.pair.xi * term,
    }
}

// The loop of the pure terms over other terms: a closure for the term makes neither shorter.
#[tactic(auto, using(numerics::specs::Iterate::iter_begins, numerics::specs::Iterate::iter_turn, numerics::specs::Iterate::iter_done), unfolding(crate::specs::Composition::departure_terms))]
fn departure_terms(
    coefficients: Coefficients,
    point: Point,
    function: PairFunction,
    both: Both,
) -> Both
    ensures { result ≡ is.departure_terms (lent coefficients.entry) function.pair point.entry.powers.delta point.entry.tau function.m both }
{
    let n = coefficients.departure_terms(function.m);
    let mut sum = both;
    for k in 0..n {
        sum = departure_step(coefficients, point, function, k, sum);
    }
    sum
}

#[tactic(auto, using(gerg_tables::proofs::Departure::has_function, gerg_tables::proofs::Departure::has_none), unfolding(crate::specs::Composition::departure_pair))]
fn departure_pair(
    coefficients: Coefficients,
    x: &[f64; 21],
    point: Point,
    i: usize,
    j: usize,
    g: &mut [f64; 21],
)
    requires { (i < j) × (j < 21) }
    ensures { g.new ≡ is.departure_pair (lent coefficients.entry) x.now point.entry.powers.delta point.entry.tau i j g.old }
{
    let Some(m) = coefficients.departure_function(i, j) else {
        return;
    };
    let xi = x[i];
    let xj = x[j];
    if (xi == 0.0) & (xj == 0.0) {
        return;
    }
    let both = Both {
        first: g[i],
        second: g[j],
    };
    let pair = Pair { i, j, xi, xj };
    let sum = departure_terms(coefficients, point, PairFunction { pair, m }, both);
    g[i] = sum.first;
    g[j] = sum.second;
}

#[tactic(auto, using(numerics::specs::Iterate::range_begins, numerics::specs::Iterate::range_turn, numerics::specs::Iterate::range_done), unfolding(crate::specs::Composition::composition_row))]
fn composition_row(
    coefficients: Coefficients,
    x: &[f64; 21],
    point: Point,
    i: usize,
    g: &mut [f64; 21],
)
    requires { i < 21 }
    ensures { g.new ≡ is.composition_row (lent coefficients.entry) x.now point.entry.powers.delta point.entry.tau i g.old }
{
    let own = pure_terms(coefficients, point, i, g[i]);
    g[i] = own;
    for j in i + 1..21 {
        departure_pair(coefficients, x, point, i, j, g);
    }
}

// The derivatives by mole fraction at fixed delta and tau.
#[tactic(auto, using(numerics::specs::Iterate::iter_begins, numerics::specs::Iterate::iter_turn, numerics::specs::Iterate::iter_done), unfolding(crate::specs::Composition::composition))]
pub fn composition(coefficients: Coefficients, x: &[f64; 21], delta: f64, tau: f64) -> [f64; 21]
    ensures { result ≡ is.composition (lent coefficients.entry) x.now delta tau }
{
    let cells = powers::powers_of(delta);
    let powers = Powers {
        delta,
        cells: &cells,
    };
    let cells = powers::dampings_of(powers);
    let dampings = Dampings {
        delta,
        cells: &cells,
    };
    let point = Point {
        powers,
        dampings,
        tau,
        ln_tau: ln(tau),
    };
    let mut h = [0.0; 21];
    for i in 0..21 {
        composition_row(coefficients, x, point, i, &mut h);
    }
    h
}
