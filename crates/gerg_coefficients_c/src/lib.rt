// The C export of `gerg_coefficients`: it calls that crate's function and states its clause again. A crate of its own, since no crate can depend on a static library.
#![tactic(auto)]

ghost use Rattle.std.specs.Prelude.{◌≡◌};
ghost use Rattle.gerg_coefficients.specs.Answer as Answers;

#[unsafe(no_mangle)]
pub extern "C" fn gerg_tables_check(file: &[u8]) -> u64
    ensures { result ≡ Answers.code_of (Answers.answer_of file.now) }
{
    gerg_coefficients::gerg_tables_check(file)
}
