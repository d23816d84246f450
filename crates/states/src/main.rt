// Request 01: reads a seed, a number of states, a mixture and a coefficient file from standard input and prints how many states `properties` refuses under each
// number.
#![tactic(auto)]

mod report;
mod text;

use std::io;

// One byte more than the longest head with the longest file: what lies beyond changes nothing (`Cut.cut_text`), so it is not read.
fn main(rt: HostRuntime) -> io::Result<()> {
    let mut buffer = [0u8; 30686];
    let n = input::read_full(&mut rt.stdin(), &mut buffer)?;
    rt.print(text::text(&buffer[..n]))
}
