// Records of a coefficient file, one by one and in runs.
ghost use Rattle.std.specs.Prelude.{◌≡◌, true, ℕ, ◌+◌, ◌-◌, ◌*◌, ◌^◌, ◌≤◌, ◌<◌, length, leb};
ghost use Rattle.gerg_file.specs.File.{Walk, chain, counted, group, numbered};

use crate::bytes::{byte_at, head, term_count};
use crate::kinds::Kind;
use gerg_refusals::Refusal;

// Whether the file has `size` bytes from `at` on.
fn holds(s: &[u8], at: usize, size: usize) -> bool
    ensures { (result ≡ leb (at + size) (length s.now)) × (result ≡ true → at + size ≤ length s.now) }
{
    at <= s.len() && size <= s.len() - at
}

// `count` steps, numbered from `first`, each from where the one before ended, which only that step tells.
pub fn run<F: Fn(usize, usize) -> Result<usize, Refusal>>(
    first: usize,
    count: usize,
    at: usize,
    step: F,
) -> Result<usize, Refusal>
    requires room { first + count < 2 ^ 64 }
    requires callable { (i here : ℕ) → first ≤ i → i < first + count → F.pre step i here }
    ensures { (f : ℕ → ℕ → Walk) → ((i here : ℕ) (r : Walk) → F.post step i here r → r ≡ f i here) → result ≡ chain f count first at }
{
    let mut here = at;
    for number in first..first + count {
        here = step(number, here)?;
    }
    Ok(here)
}

// One record of a kind with one leading number and two counts.
pub fn counted_record(
    s: &[u8],
    kind: Kind,
    limit: usize,
    lead: usize,
    at: usize,
) -> Result<usize, Refusal>
    requires { kind.bytes + 2 ≤ kind.size }
    ensures { result ≡ counted s.now kind.kind kind.size kind.bytes limit lead at }
{
    if holds(s, at, kind.size)
        && byte_at(s, at) == kind.kind
        && byte_at(s, at + 1) == lead
        && term_count(s, at, kind.bytes) <= limit
    {
        return Ok(at + kind.size);
    }
    Err(Refusal::File { offset: at })
}

// One record of a kind with two leading numbers. `lead` is a usize with a bound and no u8: it comes from the number of a step and goes into a sum of usize.
fn numbered_record(
    s: &[u8],
    kind: Kind,
    lead: usize,
    number: usize,
    at: usize,
) -> Result<usize, Refusal>
    requires lead { lead < 256 }
    requires number { number < 2 ^ 34 }
    ensures { result ≡ numbered s.now kind.kind kind.size lead number at }
{
    if holds(s, at, kind.size) && head(s, at) == kind.kind + 256 * lead + 65536 * number {
        return Ok(at + kind.size);
    }
    Err(Refusal::File { offset: at })
}

// `numbered_run` where the file has room for all the records: without a test of each for it a file is read faster.
fn numbered_inside(
    s: &[u8],
    kind: Kind,
    lead: usize,
    count: usize,
    first: usize,
    at: usize,
) -> Result<usize, Refusal>
    requires lead { lead < 256 }
    requires count { count < 2 ^ 32 }
    requires first { first < 2 ^ 32 }
    requires room { at + kind.size * count ≤ length s.now }
    ensures { result ≡ chain (numbered s.now kind.kind kind.size lead) count first at }
{
    for number in first..first + count {
        let place = at + kind.size * (number - first);
        if head(s, place) != kind.kind + 256 * lead + 65536 * number {
            return Err(Refusal::File { offset: place });
        }
    }
    Ok(at + kind.size * count)
}

// `count` records with two leading numbers, of which the first is `lead` and the second counts from `first`.
pub fn numbered_run(
    s: &[u8],
    kind: Kind,
    lead: usize,
    count: usize,
    first: usize,
    at: usize,
) -> Result<usize, Refusal>
    requires lead { lead < 256 }
    requires count { count < 2 ^ 32 }
    requires first { first < 2 ^ 32 }
    ensures { result ≡ chain (numbered s.now kind.kind kind.size lead) count first at }
{
    if holds(s, at, kind.size * count) {
        return numbered_inside(s, kind, lead, count, first, at);
    }
    run(
        first,
        count,
        at,
        |number, here| numbered_record(s, kind, lead, number, here),
    )
}

// The records of one component or departure function: as many as the two counts say that stand in record `number` of kind `of`, of those that begin at `base`.
pub fn group(
    s: &[u8],
    kind: Kind,
    base: usize,
    of: Kind,
    number: usize,
    at: usize,
) -> Result<usize, Refusal>
    requires { (0 < number) × (number < 256) }
    ensures { result ≡ group s.now kind.kind kind.size base of.bytes of.size number at }
{
    let count = term_count(s, base, of.bytes + of.size * (number - 1));
    numbered_run(s, kind, number, count, 1, at)
}
