// A reader for each number of the tables, under its name in the NIST AGA8 code. The arrays are lent and never copied.
// Each is one index expression with the bounds of its own indices: one reader for all would take the place for the name.
// They take one array and no `Coefficients`: the check of row 2 reads by them before there is one.
ghost use Rattle.std.specs.Prelude.{◌≡◌, ◌<◌};
ghost use Rattle.gerg_tables.specs.Tables as named;

// Tc: critical temperature of component i, K.
pub fn tc(doubles: &[f64; 4086], i: usize) -> f64
    requires { i < 21 }
    ensures { result ≡ named.tc doubles.now i }
{
    doubles[2 * i]
}

// MMiGERG: molar mass of component i, g/mol.
pub fn mmi_gerg(doubles: &[f64; 4086], i: usize) -> f64
    requires { i < 21 }
    ensures { result ≡ named.mmi_gerg doubles.now i }
{
    doubles[2 * i + 1]
}

// n0i 1 to 7 of component i, j from 0.
pub fn n0i(doubles: &[f64; 4086], i: usize, j: usize) -> f64
    requires { (i < 21) × (j < 7) }
    ensures { result ≡ named.n0i doubles.now i j }
{
    doubles[42 + 11 * i + j]
}

// th0i 4 to 7 of component i, j from 0.
pub fn th0i(doubles: &[f64; 4086], i: usize, j: usize) -> f64
    requires { (i < 21) × (j < 4) }
    ensures { result ≡ named.th0i doubles.now i j }
{
    doubles[49 + 11 * i + j]
}

// noik, toik: coefficient and exponent of tau of term k of component i.
pub fn noik(doubles: &[f64; 4086], i: usize, k: usize) -> f64
    requires { (i < 21) × (k < 24) }
    ensures { result ≡ named.noik doubles.now i k }
{
    doubles[273 + 48 * i + 2 * k]
}

pub fn toik(doubles: &[f64; 4086], i: usize, k: usize) -> f64
    requires { (i < 21) × (k < 24) }
    ensures { result ≡ named.toik doubles.now i k }
{
    doubles[274 + 48 * i + 2 * k]
}

// btij, bvij, gtij, gvij, fij of the pair i, j with i ≤ j.
pub fn btij(doubles: &[f64; 4086], i: usize, j: usize) -> f64
    requires { (i < 21) × (j < 21) }
    ensures { result ≡ named.btij doubles.now i j }
{
    doubles[1281 + 105 * i + 5 * j]
}

pub fn bvij(doubles: &[f64; 4086], i: usize, j: usize) -> f64
    requires { (i < 21) × (j < 21) }
    ensures { result ≡ named.bvij doubles.now i j }
{
    doubles[1282 + 105 * i + 5 * j]
}

pub fn gtij(doubles: &[f64; 4086], i: usize, j: usize) -> f64
    requires { (i < 21) × (j < 21) }
    ensures { result ≡ named.gtij doubles.now i j }
{
    doubles[1283 + 105 * i + 5 * j]
}

pub fn gvij(doubles: &[f64; 4086], i: usize, j: usize) -> f64
    requires { (i < 21) × (j < 21) }
    ensures { result ≡ named.gvij doubles.now i j }
{
    doubles[1284 + 105 * i + 5 * j]
}

pub fn fij(doubles: &[f64; 4086], i: usize, j: usize) -> f64
    requires { (i < 21) × (j < 21) }
    ensures { result ≡ named.fij doubles.now i j }
{
    doubles[1285 + 105 * i + 5 * j]
}

// cijk, eijk, gijk, nijk, tijk of term k of departure function m.
pub fn cijk(doubles: &[f64; 4086], m: usize, k: usize) -> f64
    requires { (m < 10) × (k < 12) }
    ensures { result ≡ named.cijk doubles.now m k }
{
    doubles[3486 + 60 * m + 5 * k]
}

pub fn eijk(doubles: &[f64; 4086], m: usize, k: usize) -> f64
    requires { (m < 10) × (k < 12) }
    ensures { result ≡ named.eijk doubles.now m k }
{
    doubles[3487 + 60 * m + 5 * k]
}

pub fn gijk(doubles: &[f64; 4086], m: usize, k: usize) -> f64
    requires { (m < 10) × (k < 12) }
    ensures { result ≡ named.gijk doubles.now m k }
{
    doubles[3488 + 60 * m + 5 * k]
}

pub fn nijk(doubles: &[f64; 4086], m: usize, k: usize) -> f64
    requires { (m < 10) × (k < 12) }
    ensures { result ≡ named.nijk doubles.now m k }
{
    doubles[3489 + 60 * m + 5 * k]
}

pub fn tijk(doubles: &[f64; 4086], m: usize, k: usize) -> f64
    requires { (m < 10) × (k < 12) }
    ensures { result ≡ named.tijk doubles.now m k }
{
    doubles[3490 + 60 * m + 5 * k]
}

// kpol, kexp: number of polynomial and of exponential terms of component i.
pub fn kpol(integers: &[u8; 1631], i: usize) -> u8
    requires { i < 21 }
    ensures { result ≡ named.kpol integers.now i }
{
    integers[2 * i]
}

pub fn kexp(integers: &[u8; 1631], i: usize) -> u8
    requires { i < 21 }
    ensures { result ≡ named.kexp integers.now i }
{
    integers[2 * i + 1]
}

// coik, doik: exponents of delta in the damping and in the factor of term k; bytes of signed numbers.
pub fn coik(integers: &[u8; 1631], i: usize, k: usize) -> u8
    requires { (i < 21) × (k < 24) }
    ensures { result ≡ named.coik integers.now i k }
{
    integers[42 + 48 * i + 2 * k]
}

pub fn doik(integers: &[u8; 1631], i: usize, k: usize) -> u8
    requires { (i < 21) × (k < 24) }
    ensures { result ≡ named.doik integers.now i k }
{
    integers[43 + 48 * i + 2 * k]
}

// mNumb: number, from 1, of the departure function of the pair i, j with i < j; byte of a signed number.
pub fn m_numb(integers: &[u8; 1631], i: usize, j: usize) -> u8
    requires { (i < 21) × (j < 21) }
    ensures { result ≡ named.m_numb integers.now i j }
{
    integers[1050 + 21 * i + j]
}

// kpolij, kexpij: number of polynomial and of exponential terms of departure function m.
pub fn kpolij(integers: &[u8; 1631], m: usize) -> u8
    requires { m < 10 }
    ensures { result ≡ named.kpolij integers.now m }
{
    integers[1491 + 2 * m]
}

pub fn kexpij(integers: &[u8; 1631], m: usize) -> u8
    requires { m < 10 }
    ensures { result ≡ named.kexpij integers.now m }
{
    integers[1492 + 2 * m]
}

// dijk: exponent of delta in term k of departure function m; byte of a signed number.
pub fn dijk(integers: &[u8; 1631], m: usize, k: usize) -> u8
    requires { (m < 10) × (k < 12) }
    ensures { result ≡ named.dijk integers.now m k }
{
    integers[1511 + 12 * m + k]
}
