// The grid of densities, in mol/m³.
#![tactic(auto, unfolding(crate::specs::Grid::logarithmic_point, crate::specs::Grid::even_point, crate::specs::Grid::clamped, crate::specs::Grid::point_at, crate::specs::Grid::same_as_last, crate::specs::Grid::kept))]

ghost use Rattle.std.specs.Prelude.{◌≡◌, ◌<◌, length};
ghost use Rattle.arrayvec.specs.ArrayVec.{array_vec_len};
ghost use Rattle.numerics.specs.Double.{◌⊘◌};
ghost use Rattle.elementary_ln.specs.Ln.{ln_of};
ghost use Rattle.gerg_grid.specs.GridArray.{insert_from, HoldsGrid};
ghost use Rattle.gerg_grid.specs.Grid.{lowest, highest, logarithmic_point, even_point, clamped, point_at, sorted_points, same_as_last, kept, grid_of};

use crate::{GridPoints, Points};
use elementary_exp::exp;
use elementary_ln::ln;

const LOWEST: f64 = 0.001;

const HIGHEST: f64 = 30000.0;

// `span` is the logarithm of the highest over the lowest, taken once for all points.
fn logarithmic_point(i: u32, span: f64) -> f64
    requires { span ≡ ln_of (highest ⊘ lowest) }
    ensures { result ≡ logarithmic_point i }
{
    LOWEST * exp::exp(f64::from(i) / 128.0 * span)
}

fn even_point(i: u32) -> f64
    ensures { result ≡ even_point i }
{
    LOWEST + f64::from(i) / 256.0 * (HIGHEST - LOWEST)
}

// Not `f64::clamp`, which leaves a NaN one: the definition sends it to the low end.
fn clamp(x: f64) -> f64
    ensures { result ≡ clamped x }
{
    if LOWEST <= x {
        if x <= HIGHEST {
            return x;
        }
        return HIGHEST;
    }
    LOWEST
}

// By the number of the point, as its definition is: of two ranges in a chain it would have to be shown besides that item k is point k.
fn point(k: u32, span: f64) -> f64
    requires { span ≡ ln_of (highest ⊘ lowest) }
    ensures { result ≡ point_at k }
{
    if k < 129 {
        return clamp(logarithmic_point(k, span));
    }
    clamp(even_point(k - 129))
}

// v among the first n places, which are sorted and behind which is one more: the greater ones move up by one. Not the vector's `insert`, for which an archive for C would need
// `memmove` from outside.
fn insert(points: &mut [f64], n: usize, v: f64)
    requires { n < length points.old }
    ensures { points.new ≡ insert_from n v points.old }
{
    for j in (0..n).rev() {
        let u = points[j];
        if !(v < u) {
            points[j + 1] = v;
            return;
        }
        points[j + 1] = u;
    }
    points[0] = v;
}

// Each point is put behind those that are not above it.
fn sorted_points() -> Points
    ensures { result.items ≡ sorted_points }
{
    let span = ln::ln(HIGHEST / LOWEST);
    let mut sorted = Points::new();
    for k in 0..386u32 {
        let v = point(k, span);
        let n = sorted.len();
        sorted.push(v);
        insert(&mut sorted, n, v);
    }
    sorted
}

// Whether x equals the last of the points.
fn is_last(points: &[f64], x: f64) -> bool
    ensures { result ≡ same_as_last x points.now }
{
    match points.last() {
        None => false,
        Some(last) => *last == x,
    }
}

// x behind the points, unless it equals the last of them.
fn keep(points: &mut Points, x: f64)
    requires { array_vec_len points.old < 386 }
    ensures { points.new.items ≡ kept x points.old.items }
{
    if !is_last(points, x) {
        points.push(x);
    }
}

// Worked out once for all isotherms.
pub fn grid() -> Points
    ensures { result.items ≡ grid_of }
{
    let sorted = sorted_points();
    let mut points = Points::new();
    for x in sorted.as_slice() {
        keep(&mut points, *x);
    }
    points
}

// The grid in the first places of an array.
pub fn grid_points() -> GridPoints
    ensures { HoldsGrid result.points result.count }
{
    let sorted = grid();
    let count = sorted.len();
    let mut points = [0.0; 386];
    points[..count].copy_from_slice(&sorted);
    GridPoints { points, count }
}
