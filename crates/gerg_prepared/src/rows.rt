// Rows 1 to 5, in their order.
ghost use Rattle.std.specs.Prelude.{◌≡◌, IfOk, replicate};
ghost use Rattle.numerics.specs.Double.{+0};
ghost use Rattle.gerg_tables.specs.Tables.{tables, Shaped};
ghost use Rattle.gerg_coefficients.specs.Answer.{tables_of};
ghost use Rattle.gerg_reducing.specs.Listed.{Listed};
ghost use Rattle.gerg_prepared.specs.Mixed as is;

use crate::Mixed;
use gerg_model::mixture;
use gerg_reducing::gradients;
use gerg_refusals::Refusal;

// Rows 1 to 5; `answer` is the file's, `doubles` its tables'.
#[tactic(auto, unfolding(crate::specs::Mixed::mixed_from, crate::specs::Mixed::checked_from, crate::specs::Mixed::reduced_mixture, crate::specs::Mixed::sound_mixture))]
pub fn mixed(
    doubles: &[f64; 4086],
    answer: Result<usize, Refusal>,
    list: &[u8],
    fractions: &[f64],
) -> Result<Mixed, Refusal>
    ensures { result ≡ is.mixed_from doubles.now answer list.now fractions.now }
{
    answer?;
    mixture::check_mixture(list, fractions)?;
    let model = mixture::model(doubles, list, fractions);
    let gradients = gradients::gradients(doubles, &model.fractions);
    if mixture::reducing_sound(model, &gradients) {
        return Ok(Mixed { model, gradients });
    }
    Err(Refusal::Reducing)
}

// Rows 1 to 5. The file's tables go into lent arrays of zeros, which each caller holds: a function cannot hand out what it lends, and one that took the rest as a closure would serve three of the six calls, as a caller learns nothing of lent memory that a closure wrote and no type parameter stands for a slice.
pub fn prepare(
    file: &[u8],
    list: &[u8],
    fractions: &[f64],
    doubles: &mut [f64; 4086],
    integers: &mut [u8; 1631],
) -> Result<Mixed, Refusal>
    requires { (doubles.old ≡ replicate 4086 +0) × (integers.old ≡ replicate 1631 0) }
    ensures answer { result ≡ is.mixed_of file.now list.now fractions.now }
    ensures tables { tables doubles.new integers.new ≡ tables_of file.now }
    ensures shaped { IfOk result (λ m. Shaped (tables doubles.new integers.new)) }
    ensures listed { IfOk result (λ m. Listed m.model) }
{
    let answer = gerg_coefficients::read_tables_into(file, doubles, integers);
    mixed(doubles, answer, list, fractions)
}
