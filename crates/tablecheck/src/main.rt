// Reads a coefficient file from standard input and prints one line: the refusal's number and value, or 0 and the file's length.
#![tactic(auto)]

mod line;

use std::io;

// One byte more than the longest file: what lies beyond changes no answer (`gerg_coefficients: Cut.cut_answer`), so it is not read.
fn main(rt: HostRuntime) -> io::Result<()> {
    let mut buffer = [0u8; 28378];
    let n = input::read_full(&mut rt.stdin(), &mut buffer)?;
    rt.print(line::line(&buffer[..n]))
}
