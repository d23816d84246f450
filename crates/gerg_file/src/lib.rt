// Row 1: the bytes of a coefficient file and the walk over its records.
#![tactic(auto)]

ghost use Rattle.std.specs.Prelude.{◌≡◌};
ghost use Rattle.gerg_file.specs.File.{file_of};

pub mod bytes;
pub mod kinds;
mod records;
mod walk;

use gerg_refusals::Refusal;

// Where the sections of a well-formed file begin.
#[derive(Clone, Copy)]
pub struct Layout {
    // the first term of a component
    pub terms: usize,
    // the first pair
    pub pairs: usize,
    // the first departure function, and how many there are
    pub functions: usize,
    pub count: usize,
    // the first term of a departure function
    pub departures: usize,
    pub length: usize,
}

// Where the sections of a file begin, or the offset of its first bad record or of the first byte over.
#[tactic(auto, unfolding(crate::specs::File::file_of, crate::specs::File::verdict, crate::specs::File::after_components, crate::specs::File::after_terms, crate::specs::File::after_pairs, crate::specs::File::function_count, crate::specs::File::after_functions, crate::specs::File::after_departures))]
pub fn read_layout(s: &[u8]) -> Result<Layout, Refusal>
    ensures { result ≡ file_of s.now }
{
    let components = walk::revision(s)?;
    let terms = walk::components(s, components)?;
    let pairs = walk::terms(s, terms)?;
    let functions = walk::pairs(s, pairs)?;
    let count = walk::function_count(s, functions);
    let departures = walk::functions(s, count, functions)?;
    let end = walk::departures(s, functions, count, departures)?;
    if end != s.len() {
        return Err(Refusal::File { offset: end });
    }
    Ok(Layout {
        terms,
        pairs,
        functions,
        count,
        departures,
        length: end,
    })
}
