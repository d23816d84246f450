// The square root: the whole number nearest to the significand's root, the exponent halved. An estimate by Newton's steps is tested exactly;
// where the test fails, the root is found digit by digit. So nothing has to be known of the estimate.
// The bounds in the clauses are bounds of plain numbers: a type for each would be made and opened in every line of arithmetic.

ghost use Rattle.std.specs.Prelude.{◌≡◌, true, ◌*◌, ◌^◌, ◌≤◌, ◌<◌};
ghost use Rattle.elementary_sqrt.specs.Sqrt.{root_of, nearest_root, shift_of, significand_of, exponent_of, root_bits, sqrt_of};

// The nearest double to the root of x; ±0 and +infinity as they are; NaN for a NaN and below zero.
pub fn sqrt(x: f64) -> f64
    ensures { result ≡ sqrt_of x }
{
    if (0.0 < x) & (x <= 1.7976931348623157e308) {
        return f64::from_bits(root_bits(x.to_bits()));
    }
    if (x == 0.0) | (1.7976931348623157e308 < x) {
        return x;
    }
    0.0 / 0.0
}

// The pattern of the nearest double to the root of the positive double with the pattern b.
fn root_bits(b: u64) -> u64
    requires { (0 < b) × (b < 2 ^ 63) }
    ensures { (result ≡ root_bits b) × (result < 0x7ff0_0000_0000_0000) }
{
    let m = significand(b);
    let e = exponent(b);
    let radicand = if e % 2 == 1 { 2 * m } else { m };
    (e / 2 - 1) * 0x10_0000_0000_0000 + nearest_root(radicand)
}

// How far the digits of a subnormal are moved up for bit 52 to be set.
fn shift(b: u64) -> u32
    requires { (0 < b) × (b < 2 ^ 52) }
    ensures { (result ≡ shift_of b) × (result ≤ 52) }
{
    b.leading_zeros() - 11
}

// The significand of a positive pattern, bit 52 set.
fn significand(b: u64) -> u64
    requires { (0 < b) × (b < 2 ^ 63) }
    ensures { (result ≡ significand_of b) × (result < 2 ^ 53) }
{
    if b < 0x10_0000_0000_0000 {
        return b << shift(b);
    }
    0x10_0000_0000_0000 + b % 0x10_0000_0000_0000
}

// The exponent's field of a positive pattern and 1023.
fn exponent(b: u64) -> u64
    requires { (0 < b) × (b < 2 ^ 63) }
    ensures { (result ≡ exponent_of b) × (972 ≤ result) × (result ≤ 3070) }
{
    if b < 0x10_0000_0000_0000 {
        return 1024 - u64::from(shift(b));
    }
    b / 0x10_0000_0000_0000 + 1023
}

// The whole number nearest to the root of x * 2^52: the estimate or a neighbour of it, else by its digits.
fn nearest_root(x: u64) -> u64
    requires { x < 2 ^ 54 }
    ensures { (result ≡ nearest_root (x * 2 ^ 52)) × (result ≤ 2 ^ 53) }
{
    let q = estimate(x);
    if is_nearest(x, q) {
        return q;
    }
    if is_nearest(x, q + 1) {
        return q + 1;
    }
    if is_nearest(x, q - 1) {
        return q - 1;
    }
    (root_digits(x) + 1) / 2
}

// Whether q is nearest to the root of x * 2^52: q^2 - q < x * 2^52 <= q^2 + q. With q = high * 2^26 + low, x * 2^52 - q^2 is
// (x - high^2) * 2^52 - high * low * 2^27 - low^2, whose first two parts are taken with 2^54 added, so that no difference is negative.
fn is_nearest(x: u64, q: u64) -> bool
    requires { (x < 2 ^ 54) × (q < 2 ^ 55) }
    ensures { result ≡ true → q ≡ nearest_root (x * 2 ^ 52) }
{
    let high = q / 0x400_0000;
    let low = q % 0x400_0000;
    if x + 4 < high * high {
        return false;
    }
    let rest = x + 4 - high * high;
    if 0x4000_0000 <= rest {
        return false;
    }
    if rest * 0x200_0000 < high * low {
        return false;
    }
    let last = rest * 0x200_0000 - high * low;
    if 0x4000_0000 <= last {
        return false;
    }
    let here = last * 0x800_0000;
    let there = 0x40_0000_0000_0000 + low * low;
    (there < here + q) & (here <= there + q)
}

// About the root of x * 2^52, for x from 2^52: a quadratic within 1/199 of the root of x / 2^52, and three of Newton's steps.
fn estimate(x: u64) -> u64
    requires { x < 2 ^ 54 }
    ensures { (0 < result) × (result ≤ 2 ^ 54) }
{
    let a = scaled(x);
    let y = (0.5260097 - 0.0395401 * a) * a + 0.5185546;
    let y = 0.5 * (y + a / y);
    let y = 0.5 * (y + a / y);
    let y = 0.5 * (y + a / y);
    if 0.0 < y {
        return digits_of(y.to_bits());
    }
    1
}

// The significand of a pattern from 1 to 2, as a whole number; no other pattern comes.
fn digits_of(b: u64) -> u64
    ensures { (0 < result) × (result ≤ 2 ^ 54) }
{
    if b <= 0x3fe0_0000_0000_0000 {
        return 1;
    }
    if 0x4010_0000_0000_0000 < b {
        return 1;
    }
    b - 0x3fe0_0000_0000_0000
}

// x / 2^52 for x from 2^52, its last digit 0 from 2^53 on.
fn scaled(x: u64) -> f64
    requires { x < 2 ^ 54 }
{
    if x < 0x20_0000_0000_0000 {
        return f64::from_bits(x + 0x3fe0_0000_0000_0000);
    }
    f64::from_bits(x / 2 + 0x3ff0_0000_0000_0000)
}

// The root of x * 2^54, cut to a whole number: 54 digits, from the highest. Before each, 2 (x * 2^54 - root^2) = left * (2 * bit).
fn root_digits(x: u64) -> u64
    requires { x < 2 ^ 54 }
    ensures { (result ≡ root_of 54 (x * 2 ^ 54)) × (result < 2 ^ 54) }
{
    let mut root: u64 = 0;
    let mut left = 2 * x;
    let mut bit: u64 = 0x20_0000_0000_0000;
    for _ in 0..54u64 {
        let next = 2 * root + bit;
        if next <= left {
            left -= next;
            root += bit;
        }
        left = 2 * left;
        bit /= 2;
    }
    root
}
