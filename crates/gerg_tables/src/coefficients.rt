// The tables of an accepted file, lent together.
ghost use Rattle.std.specs.Prelude.{◌≡◌, ℕ, ◌+◌, ◌<◌, ◌≤◌};
ghost use Rattle.gerg_tables.specs.Tables as named;
ghost use Rattle.gerg_tables.specs.Tables.{tables, Shaped};
ghost use Rattle.gerg_tables.specs.Departure.{departure_function};

use crate::named;

// Every term that the tables count has a place in them, and every pair's departure function is there.
#[derive(Clone, Copy)]
pub struct Coefficients<'a> {
    pub doubles: &'a [f64; 4086],
    pub integers: &'a [u8; 1631],
    pub ghost shaped: { Shaped (tables doubles.now integers.now) },
}

impl<'a> Coefficients<'a> {
    // How many terms component i has.
    pub fn pure_terms(self, i: usize) -> usize
        requires { i < 21 }
        ensures count { result ≡ named.kpol self.entry.integers.now i + named.kexp self.entry.integers.now i }
        ensures room { result ≤ 24 }
    {
        usize::from(named::kpol(self.integers, i)) + usize::from(named::kexp(self.integers, i))
    }

    // How many terms departure function m has. Beside `pure_terms`: the two differ in their readers, in the field that bounds them and in the bound.
    pub fn departure_terms(self, m: usize) -> usize
        requires { m < 10 }
        ensures count { result ≡ named.kpolij self.entry.integers.now m + named.kexpij self.entry.integers.now m }
        ensures room { result ≤ 12 }
    {
        usize::from(named::kpolij(self.integers, m)) + usize::from(named::kexpij(self.integers, m))
    }

    // The departure function of the pair i, j, from 0, where it has one.
    pub fn departure_function(self, i: usize, j: usize) -> Option<usize>
        requires { (i < j) × (j < 21) }
        ensures function { result ≡ departure_function self.entry.integers.now i j }
        ensures below { (m : ℕ) → result ≡ Some m → m < 10 }
    {
        let number = named::m_numb(self.integers, i, j);
        if number < 128 {
            return Some(usize::from(number) - 1);
        }
        None
    }
}
