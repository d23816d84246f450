// The tables of coefficients: their numbers by name, and the check of row 2.
#![tactic(auto)]

pub mod check;
pub mod coefficients;
pub mod named;
pub mod numbers;

// The tables of a coefficient file, in fixed memory as document 01 has them: "held as flat arrays".
#[derive(Clone, Copy)]
pub struct Tables {
    // Tc, MMiGERG; n0i, th0i; noik, toik; btij, bvij, gtij, gvij, fij; cijk, eijk, gijk, nijk, tijk
    pub doubles: [f64; 4086],
    // kpol, kexp; coik, doik; mNumb; kpolij, kexpij; dijk
    pub integers: [u8; 1631],
}
