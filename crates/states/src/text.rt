// What standard input says, and the text that the program prints.
ghost use Rattle.std.specs.Prelude.{◌≡◌, ◌+◌, ◌*◌, ◌≤◌, length};
ghost use Rattle.gerg_coefficients.specs.Load.{doubles_at};
ghost use Rattle.states.specs.Text as is;

use crate::report::Report;
use gerg_file::bytes::{byte_at, double_inside, word_inside};

fn states_of(input: &[u8]) -> u32
    requires { 12 ≤ length input.now }
    ensures { result ≡ is.states_of input.now }
{
    u32::from_le_bytes([input[8], input[9], input[10], input[11]])
}

// The doubles that stand from a place on.
fn read_doubles(input: &[u8], at: usize, doubles: &mut [f64])
    requires { at + 8 * length doubles.old ≤ length input.now }
    ensures { doubles.new ≡ doubles_at input.now at (length doubles.old) }
{
    for (k, double) in doubles.iter_mut().enumerate() {
        *double = double_inside(input, at + 8 * k);
    }
}

// The report on an input.
pub fn text(input: &[u8]) -> Report
    ensures { is.report_text result ≡ is.text_of input.now }
{
    let components = byte_at(input, 12);
    let list_end = 13 + components;
    let file_start = 13 + 9 * components;
    if input.len() < file_start {
        return Report::of_run(1, 0, &[], &[], &[]);
    }
    let mut fractions = [0.0; 255];
    let fractions = &mut fractions[..components];
    read_doubles(input, list_end, fractions);
    let seed = word_inside(input, 0);
    let states = states_of(input);
    Report::of_run(
        seed,
        states,
        &input[13..list_end],
        fractions,
        &input[file_start..],
    )
}
