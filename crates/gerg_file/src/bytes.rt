// The numbers that stand in a coefficient file. A byte past the file's end is 0.
// Functions take the whole file and a place, no slice from the place on: a refusal tells the offset from the file's start, and a walk may come past its end.
ghost use Rattle.std.specs.Prelude.{◌≡◌, ◌+◌, ◌*◌, ◌^◌, ◌≤◌, ◌<◌, length};
ghost use Rattle.std.specs.Float.Ieee.{of_bits};
ghost use Rattle.std.specs.Float.{binary64};
ghost use Rattle.gerg_file.specs.Bytes.{byte, term_count, word, double_at};

pub fn byte_at(s: &[u8], at: usize) -> usize
    ensures { (result ≡ byte s.now at) × ((result < 256) × (0 < result → at < length s.now)) }
{
    s.get(at).map_or(0, |byte| usize::from(*byte))
}

// The two counts that stand `offset` bytes past `base`, together.
pub fn term_count(s: &[u8], base: usize, offset: usize) -> usize
    requires { offset < 2 ^ 32 }
    ensures { (result ≡ term_count s.now (base + offset)) × (result ≤ 510) }
{
    if s.len() <= base {
        return 0;
    }
    let a = byte_at(s, base + offset);
    let b = byte_at(s, base + offset + 1);
    a + b
}

// The kind and two leading numbers of a record of at least 4 bytes, as one number: with the byte after them this is one load.
pub fn head(s: &[u8], at: usize) -> usize
    requires { at + 4 ≤ length s.now }
    ensures { (result ≡ byte s.now at + 256 * byte s.now (at + 1) + 65536 * byte s.now (at + 2)) × ((byte s.now at < 256) × (byte s.now (at + 1) < 256)) }
{
    let word = u32::from_le_bytes([s[at], s[at + 1], s[at + 2], s[at + 3]]);
    // 32 bits have no `From` into a `usize`, and `try_from` would have an error that never comes.
    word as usize % 16777216
}

// The 8 bytes at a place where the file has all of them: without a test for each of them this is one load.
pub fn word_inside(s: &[u8], at: usize) -> u64
    requires { at + 8 ≤ length s.now }
    ensures { result ≡ word s.now at }
{
    u64::from_le_bytes([
        s[at],
        s[at + 1],
        s[at + 2],
        s[at + 3],
        s[at + 4],
        s[at + 5],
        s[at + 6],
        s[at + 7],
    ])
}

// The double of a bit pattern; every pattern of a NaN is the one NaN.
fn double_of(w: u64) -> f64
    ensures { result ≡ of_bits binary64 w }
{
    if 0x7ff0_0000_0000_0000 < w % 0x8000_0000_0000_0000 {
        0.0 / 0.0
    } else {
        f64::from_bits(w)
    }
}

// The double of 8 bytes of the file.
#[tactic(auto, unfolding(crate::specs::Bytes::double_at))]
pub fn double_inside(s: &[u8], at: usize) -> f64
    requires { at + 8 ≤ length s.now }
    ensures { result ≡ double_at s.now at }
{
    double_of(word_inside(s, at))
}
