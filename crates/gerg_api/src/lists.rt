// The calls of request 05 for C: a chromatograph's list read and written. A slice is a pointer and a length.
ghost use Rattle.std.specs.Prelude.{◌≡◌, length};
ghost use Rattle.gerg_refusals.specs.Code.{code};
ghost use Rattle.chromatograph.specs.Lists as is;

use chromatograph::{reader, writer};
use gerg_refusals::code::code;

#[unsafe(no_mangle)]
pub extern "C" fn gerg_read_list(
    bytes: &[u8],
    list: &mut [u8],
    parts: &mut [u32],
    fractions: &mut [f64],
) -> u64
    ensures answer { result ≡ code (is.read_of bytes.now list.old parts.old fractions.old) }
    ensures components { list.new ≡ is.components_read bytes.now list.old parts.old fractions.old }
    ensures parts { parts.new ≡ is.parts_read bytes.now list.old parts.old fractions.old }
    ensures fractions { fractions.new ≡ is.fractions_read bytes.now list.old parts.old fractions.old }
{
    let answer = reader::read_list(bytes, list, parts, fractions);
    code(answer)
}

#[unsafe(no_mangle)]
pub extern "C" fn gerg_write_list(list: &[u8], parts: &[u32], out: &mut [u8]) -> u64
    ensures answer { result ≡ code (is.write_answer list.now parts.now (length out.old)) }
    ensures memory { out.new ≡ is.bytes_written list.now parts.now out.old }
{
    let answer = writer::write_list(list, parts, out);
    code(answer)
}
