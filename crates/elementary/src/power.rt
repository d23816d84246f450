// powf and powi.

ghost use Rattle.std.specs.Prelude.{◌≡◌};
ghost use Rattle.std.specs.Float.Ieee.{of_int};
ghost use Rattle.std.specs.Float.{binary64};
ghost use Rattle.numerics.specs.Fill.{tabulate};
ghost use Rattle.elementary.specs.Power.{powf_of, powf_from, power_of, powi_of, powi_byte_of, signed_of};

use elementary_exp::exp;
use elementary_ln::ln;

// x to the power t.
pub fn powf(x: f64, t: f64) -> f64
    ensures { result ≡ powf_of x t }
{
    powf_of_ln(x, ln::ln(x), t)
}

// x to the power t where l is the logarithm of x, so that a loop over t takes it once.
pub fn powf_of_ln(x: f64, l: f64, t: f64) -> f64
    ensures { result ≡ powf_from x l t }
{
    if t == 0.0 {
        return 1.0;
    }
    if (0.0 < x) & (x <= 1.7976931348623157e308) {
        return exp::exp(t * l);
    }
    0.0 / 0.0
}

// x to the power n.
fn power(x: f64, n: u32) -> f64
    ensures { result ≡ power_of x n }
{
    let mut r = 1.0;
    let mut b = x;
    let mut m = n;
    // A turn for each binary digit of n up to its highest: a `for` over all 32 would go on squaring b after that.
    while m != 0 {
        if m % 2 == 1 {
            r = r * b;
        }
        b = b * b;
        m = m / 2;
    }
    r
}

// x to the power n, for every `i32`.
pub fn powi(x: f64, n: i32) -> f64
    ensures { result ≡ powi_of x n }
{
    let r = power(x, n.unsigned_abs());
    if n < 0 {
        return 1.0 / r;
    }
    r
}

// x to the power of a byte that is read as a signed number.
pub fn powi_byte(x: f64, b: u8) -> f64
    ensures { result ≡ powi_of x (signed_of b) }
{
    powi(x, i32::from(b.cast_signed()))
}

// x to the powers 0 to 7, as powi takes them: the squares are shared.
pub fn powers_below_8(x: f64) -> [f64; 8]
    ensures { result ≡ tabulate (powi_byte_of x) 8 }
{
    let square = x * x;
    let fourth = square * square;
    let first = 1.0 * x;
    let second = 1.0 * square;
    [
        1.0,
        first,
        second,
        first * square,
        1.0 * fourth,
        first * fourth,
        second * fourth,
        first * square * fourth,
    ]
}

// A byte that is read as a signed number, as a double.
pub fn signed_double(b: u8) -> f64
    ensures { result ≡ of_int binary64 (signed_of b) }
{
    f64::from(b.cast_signed())
}
