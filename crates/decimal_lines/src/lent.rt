// Lines stored into lent bytes that have room for them: this can't fail, as printing them can.
ghost use Rattle.std.specs.Prelude.{◌≡◌, ◌+◌, ◌-◌, ◌*◌, ◌≤◌, length};
ghost use Rattle.std.proofs.lemmas.List.Edits.{sets};
ghost use Rattle.decimal_lines.specs.Line.{decimal, line_from, count_line, count_lines_text};

use crate::FIRST;

// n in decimal, by at most k digits, stored from `at` on; the place past the last of them. It calls itself where `decimal` does; a digit's byte is at most 57, so no cast loses anything.
fn put_decimal(n: u64, k: usize, at: usize, out: &mut [u8]) -> usize
    requires { at + k ≤ length out.old }
    ensures stored { out.new ≡ sets out.old at (decimal k n) }
    ensures end { result ≡ at + length (decimal k n) }
    ensures within { result ≤ at + k }
{
    if k == 0 {
        return at;
    }
    if n < 10 {
        out[at] = (48 + n) as u8;
        return at + 1;
    }
    let next = put_decimal(n / 10, k - 1, at, out);
    out[next] = (48 + n % 10) as u8;
    next + 1
}

// Two numbers as a line, stored from `at` on; the place past it.
pub fn put_line(number: u64, value: u64, at: usize, out: &mut [u8]) -> usize
    requires { at + 42 ≤ length out.old }
    ensures stored { out.new ≡ sets out.old at (line_from number value) }
    ensures end { result ≡ at + length (line_from number value) }
    ensures within { result ≤ at + 42 }
{
    let space = put_decimal(number, 20, at, out);
    out[space] = 32;
    let end = put_decimal(value, 20, space + 1, out);
    out[end] = 10;
    end + 1
}

// A number and its count as a line, stored from `at` on, where the count is not 0; the place past it.
#[tactic(auto, using(crate::proofs::Counts::count_none, crate::proofs::Counts::count_some))]
fn put_count(number: usize, count: u64, at: usize, out: &mut [u8]) -> usize
    requires { at + 42 ≤ length out.old }
    ensures stored { out.new ≡ sets out.old at (count_line number count) }
    ensures end { result ≡ at + length (count_line number count) }
    ensures within { result ≤ at + 42 }
{
    if count == 0 {
        return at;
    }
    // A `usize` has no `From` into 64 bits.
    put_line(number as u64, count, at, out)
}

// The lines that `CountLines` prints of the counts, stored from `at` on; the place past them.
pub fn put_counts(counts: &[u64], at: usize, out: &mut [u8]) -> usize
    requires { at + 42 * (length counts.now - 1) ≤ length out.old }
    ensures stored { out.new ≡ sets out.old at (count_lines_text counts.now) }
    ensures end { result ≡ at + length (count_lines_text counts.now) }
    ensures within { result ≤ at + 42 * (length counts.now - 1) }
{
    let mut end = at;
    for (number, count) in counts.iter().enumerate() {
        if FIRST <= number {
            end = put_count(number, *count, end, out);
        }
    }
    end
}
