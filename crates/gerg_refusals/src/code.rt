// What a C export answers: number × 2^32 + value.
#![tactic(auto, unfolding(crate::specs::Code::code_of, crate::specs::Code::code))]

ghost use Rattle.std.specs.Prelude.{◌≡◌};
ghost use Rattle.gerg_refusals.specs.Code as is;

use crate::Refusal;

// Of any number and value. A length has no `From` into 64 bits, and `try_from` would have an error that never comes: so `as`.
pub fn code_of(number: u8, value: usize) -> u64
    ensures { result ≡ is.code_of number value }
{
    u64::from(number) * 0x1_0000_0000 + value as u64 % 0x1_0000_0000
}

// Number 0 beside what an accepted answer reports.
pub fn code(answer: Result<usize, Refusal>) -> u64
    ensures { result ≡ is.code answer }
{
    match answer {
        Ok(reported) => code_of(0, reported),
        Err(refusal) => code_of(refusal.number(), refusal.value()),
    }
}
