// The sections of a coefficient file, each from where it begins to where the next does.
ghost use Rattle.std.specs.Prelude.{◌≡◌, ◌≤◌};
ghost use Rattle.gerg_file.specs.File.{after_revision, chain, component_step, term_row, pair_row, functions, function_step, departure_row};

use crate::bytes::byte_at;
use crate::kinds::{COMPONENT, DEPARTURE, FUNCTION, PAIR, REVISION, TERM};
use crate::records::{counted_record, group, numbered_run, run};
use gerg_refusals::Refusal;

// The first record: kind 1 and the revision of the tables.
pub fn revision(s: &[u8]) -> Result<usize, Refusal>
    ensures { result ≡ after_revision s.now }
{
    if s.starts_with(b"\x013bdb9ab8ff317c618b0b59d1b704c2c86ddc5fce") {
        return Ok(REVISION.size);
    }
    Err(Refusal::File { offset: 0 })
}

pub fn components(s: &[u8], at: usize) -> Result<usize, Refusal>
    ensures { result ≡ chain (component_step s.now) 21 1 at }
{
    run(
        1,
        21,
        at,
        |number, here| counted_record(s, COMPONENT, 24, number, here),
    )
}

pub fn terms(s: &[u8], at: usize) -> Result<usize, Refusal>
    ensures { result ≡ chain (term_row s.now) 21 1 at }
{
    run(
        1,
        21,
        at,
        |number, here| group(s, TERM, REVISION.size, COMPONENT, number, here),
    )
}

pub fn pairs(s: &[u8], at: usize) -> Result<usize, Refusal>
    ensures { result ≡ chain (pair_row s.now) 21 1 at }
{
    run(
        1,
        21,
        at,
        |number, here| numbered_run(s, PAIR, number, 22 - number, number, here),
    )
}

// How many departure functions there are. Their place is kept from turn to turn: `at` may be any number, and what bounds the next place is that a record was found at the last.
pub fn function_count(s: &[u8], at: usize) -> usize
    ensures { (result ≡ functions s.now 10 at) × (result ≤ 10) }
{
    let mut here = at;
    for count in 0..10 {
        if byte_at(s, here) != FUNCTION.kind {
            return count;
        }
        here += FUNCTION.size;
    }
    10
}

pub fn functions(s: &[u8], count: usize, at: usize) -> Result<usize, Refusal>
    requires { count ≤ 10 }
    ensures { result ≡ chain (function_step s.now) count 1 at }
{
    run(
        1,
        count,
        at,
        |number, here| counted_record(s, FUNCTION, 12, number, here),
    )
}

// The terms of the `count` departure functions at `functions`.
pub fn departures(s: &[u8], functions: usize, count: usize, at: usize) -> Result<usize, Refusal>
    requires { count ≤ 10 }
    ensures { result ≡ chain (departure_row s.now functions) count 1 at }
{
    run(
        1,
        count,
        at,
        |number, here| group(s, DEPARTURE, functions, FUNCTION, number, here),
    )
}
