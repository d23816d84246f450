// Row 2: the check of the tables. Components are counted from 0. Indices are plain numbers: a type with the bound would be made at each turn of a range and opened at each read.
ghost use Rattle.std.specs.Prelude.{◌≡◌, true, List, ℕ, Float, ◌+◌, ◌-◌, ◌*◌, ◌≤◌, ◌<◌, Ok};
ghost use Rattle.gerg_tables.specs.Check as Check;
ghost use Rattle.gerg_tables.specs.Check.{some_from};

use crate::named::{btij, bvij, fij, gtij, gvij, m_numb, mmi_gerg, tc};
use crate::numbers::is_finite;
use gerg_refusals::Fault;

fn positive(x: f64) -> bool
    ensures { result ≡ Check.positive x }
{
    0.0 < x
}

// Whether a number of a pair i ≤ j is not finite, for row i of the pairs. A row has a function of its own, also below: of an `any` within an `any` the proof did not close.
fn some_nonfinite_row<F: Fn(usize, usize) -> f64>(number: &F, i: usize) -> bool
    requires callable { (j : ℕ) → i ≤ j → j < 21 → F.pre number.now i j }
    ensures { (doubles : List Float) (q : ℕ) → ((j : ℕ) (r : Float) → F.post number.now i j r → r ≡ Check.pair_number doubles q i j) → result ≡ some_from (Check.nonfinite doubles q i) i }
{
    (i..21).any(
        |j|
            requires { F.pre number.now i j }
        { !is_finite(number(i, j)) },
    )
}

// The same for all rows; `number` reads one of the five numbers of a pair.
fn some_nonfinite<F: Fn(usize, usize) -> f64>(number: F) -> bool
    requires callable { (i j : ℕ) → i ≤ j → j < 21 → F.pre number i j }
    ensures { (doubles : List Float) (q : ℕ) → ((i j : ℕ) (r : Float) → F.post number i j r → r ≡ Check.pair_number doubles q i j) → result ≡ Check.some_nonfinite doubles q }
{
    (0..21).any(|i| some_nonfinite_row(&number, i))
}

fn fault_if(test: bool, fault: Fault) -> Result<(), Fault>
    ensures { result ≡ Check.fault_if test fault }
{
    if test {
        return Err(fault);
    }
    Ok(())
}

// The fault of the first number of the pairs that is not finite; none is where `finite` says so.
#[tactic(auto, unfolding(crate::specs::Check::first))]
fn first_nonfinite(doubles: &[f64; 4086], finite: bool) -> Result<(), Fault>
    requires { finite ≡ true → Check.PairsFinite doubles.now }
    ensures { result ≡ Check.first (Check.number_fault doubles.now) 5 0 }
{
    if finite {
        return Ok(());
    }
    fault_if(some_nonfinite(|i, j| btij(doubles, i, j)), Fault::Btij)?;
    fault_if(some_nonfinite(|i, j| bvij(doubles, i, j)), Fault::Bvij)?;
    fault_if(some_nonfinite(|i, j| gtij(doubles, i, j)), Fault::Gtij)?;
    fault_if(some_nonfinite(|i, j| gvij(doubles, i, j)), Fault::Gvij)?;
    fault_if(some_nonfinite(|i, j| fij(doubles, i, j)), Fault::Fij)
}

// Whether Tc of component i is not finite, or its mass not finite and positive.
fn bad_critical(doubles: &[f64; 4086], i: usize) -> bool
    requires { i < 21 }
    ensures { result ≡ Check.bad_critical doubles.now i }
{
    let mass = mmi_gerg(doubles, i);
    !(is_finite(tc(doubles, i)) && is_finite(mass) && positive(mass))
}

// Whether btij or bvij is not positive.
fn not_positive(doubles: &[f64; 4086], i: usize, j: usize) -> bool
    requires { (i < 21) × (j < 21) }
    ensures { result ≡ Check.not_positive doubles.now i j }
{
    !(positive(btij(doubles, i, j)) && positive(bvij(doubles, i, j)))
}

fn some_not_positive(doubles: &[f64; 4086], i: usize) -> bool
    requires { i < 21 }
    ensures { result ≡ some_from (Check.not_positive doubles.now i) i }
{
    (i..21).any(|j| not_positive(doubles, i, j))
}

#[tactic(auto, unfolding(crate::specs::Check::component_fault))]
fn component_fault(doubles: &[f64; 4086], i: usize) -> Result<(), Fault>
    requires { i < 21 }
    ensures { result ≡ Check.component_fault doubles.now i }
{
    fault_if(bad_critical(doubles, i), Fault::Critical)?;
    fault_if(some_not_positive(doubles, i), Fault::NotPositive)
}

// The first fault by component.
fn first_component_fault(doubles: &[f64; 4086]) -> Result<(), Fault>
    ensures { result ≡ Check.first (Check.component_fault doubles.now) 21 0 }
{
    for i in 0..21 {
        component_fault(doubles, i)?;
    }
    Ok(())
}

// Whether mNumb is not negative, and 0 or above the number of departure functions.
fn bad_number(integers: &[u8; 1631], count: usize, i: usize, j: usize) -> bool
    requires { (i < 21) × (j < 21) }
    ensures { result ≡ Check.bad_number integers.now count i j }
{
    let m = m_numb(integers, i, j);
    m < 128 && (m == 0 || count < usize::from(m))
}

fn some_bad_number_row(integers: &[u8; 1631], count: usize, i: usize) -> bool
    requires { i < 21 }
    ensures { result ≡ some_from (Check.bad_number integers.now count i) (i + 1) }
{
    (i + 1..21).any(|j| bad_number(integers, count, i, j))
}

fn some_bad_number(integers: &[u8; 1631], count: usize) -> bool
    ensures { result ≡ Check.some_bad_number integers.now count }
{
    (0..21).any(|i| some_bad_number_row(integers, count, i))
}

// The first fault of the tables of a file with `count` departure functions. `finite` tells that the numbers of the pairs are: whoever stored
// them has looked at each already. It is a flag, since a file with a number that is not finite comes here too, with `false`.
#[tactic(auto, unfolding(crate::specs::Check::fault_of))]
pub fn fault(
    doubles: &[f64; 4086],
    integers: &[u8; 1631],
    count: usize,
    finite: bool,
) -> Result<(), Fault>
    requires { finite ≡ true → Check.PairsFinite doubles.now }
    ensures { result ≡ Check.fault_of doubles.now integers.now count }
{
    first_nonfinite(doubles, finite)?;
    first_component_fault(doubles)?;
    fault_if(some_bad_number(integers, count), Fault::Departure)
}
