// Records of packed decimal, of which a chromatograph's list is made: kind 0x10, component, eight decimal digits in four bytes.
#![tactic(auto)]

ghost use Rattle.std.specs.Prelude.{◌≡◌, ◌+◌, ◌%◌, ◌≤◌, ltb, length};
ghost use Rattle.std.specs.Bool.{then_some};
ghost use Rattle.std.proofs.lemmas.List.Edits.{sets};
ghost use Rattle.packed_decimal.specs.Record as is;
ghost use Rattle.packed_decimal.specs.Records.{wrong_offset, bad_total};

// The high digit first.
#[tactic(auto, unfolding(crate::specs::Record::two_digits))]
fn two_digits(byte: u8) -> u32
    ensures { (result ≡ is.two_digits byte) × (result ≤ 165) }
{
    u32::from(byte / 16) * 10 + u32::from(byte % 16)
}

#[tactic(auto, unfolding(crate::specs::Record::wrong_digits))]
fn wrong_digits(byte: u8) -> bool
    ensures { result ≡ is.wrong_digits byte }
{
    (9 < byte / 16) | (9 < byte % 16)
}

// Whether a record is cut, of another kind, or has a digit above 9.
#[tactic(auto, unfolding(crate::specs::Record::wrong_record))]
fn wrong_record(bytes: &[u8]) -> bool
    ensures { result ≡ is.wrong_record bytes.now 0 }
{
    match bytes {
        [kind, _, a, b, c, d, ..] => {
            (*kind != 0x10)
                | (wrong_digits(*a) | (wrong_digits(*b) | (wrong_digits(*c) | wrong_digits(*d))))
        }
        _ => true,
    }
}

// The offset of the first wrong record.
pub fn wrong_offset(bytes: &[u8]) -> Option<usize>
    ensures { result ≡ then_some (ltb (wrong_offset bytes.now) (length bytes.now)) (wrong_offset bytes.now) }
{
    bytes.chunks(6).position(wrong_record).map(|k| 6 * k)
}

// The parts of the record at `at`.
#[tactic(auto, unfolding(crate::specs::Record::parts_at))]
pub fn parts_at(bytes: &[u8], at: usize) -> u32
    requires { at + 6 ≤ length bytes.now }
    ensures { result ≡ is.parts_at bytes.now at }
{
    ((two_digits(bytes[at + 2]) * 100 + two_digits(bytes[at + 3])) * 100
        + two_digits(bytes[at + 4]))
        * 100
        + two_digits(bytes[at + 5])
}

// The double nearest to parts over 1,000,000: one division of two whole numbers, each a double.
#[tactic(auto, using(crate::proofs::Laws::Fraction::quotient))]
pub fn fraction(parts: u32) -> f64
    ensures { result ≡ is.fraction_of parts }
{
    f64::from(parts) / 1_000_000.0
}

// The byte of the last two digits.
#[tactic(auto, unfolding(crate::specs::Record::packed))]
fn packed(digits: u32) -> u8
    ensures { result ≡ is.packed (digits % 100) }
{
    // At most 153, so the cast loses nothing; `u8::try_from` would answer an error that never is.
    (digits % 100 / 10 * 16 + digits % 10) as u8
}

// The record of a component and its parts, stored from `at` on.
#[tactic(auto, using(crate::proofs::Laws::Record::stored))]
pub fn put_record(component: u8, parts: u32, at: usize, out: &mut [u8])
    requires { at + 6 ≤ length out.old }
    ensures { out.new ≡ sets out.old at (is.record_of component parts) }
{
    out[at..at + 6].copy_from_slice(&[
        0x10,
        component,
        packed(parts / 1_000_000),
        packed(parts / 10_000),
        packed(parts / 100),
        packed(parts),
    ]);
}

// Whether parts total another number than 1,000,000. A total past that is not added to any further, so it stays below 2^33 however many there are.
#[tactic(auto, using(crate::proofs::Laws::Total::total_told, numerics::specs::Iterate::iter_zero, numerics::specs::Iterate::iter_next))]
pub fn bad_total(parts: &[u32]) -> bool
    ensures { result ≡ bad_total parts.now }
{
    let mut total = 0;
    for part in parts {
        total += u64::from(*part);
        if 1_000_000 < total {
            return true;
        }
    }
    total != 1_000_000
}
