// The call `read_list`.
ghost use Rattle.std.specs.Prelude.{◌≡◌, false, ℕ, ◌*◌, ◌≤◌, ◌<◌, ltb, length, replicate};
ghost use Rattle.numerics.specs.Loop.{tabulate, filled};
ghost use Rattle.packed_decimal.specs.Record.{component_at, parts_at, fraction_of};
ghost use Rattle.packed_decimal.specs.Records.{offset_of, wrong_offset, components_of};
ghost use Rattle.chromatograph.specs.Lists as is;

use crate::row_3::row_3;
use gerg_refusals::Refusal;

// Writes f(k) into place k, for each.
#[tactic(auto, using(numerics::specs::Fill::fill_begins, numerics::specs::Fill::fill_again, numerics::specs::Fill::fill_whole))]
fn write_each<T: Copy, F: Fn(usize) -> T>(places: &mut [T], f: F)
    requires { (k : ℕ) → k < length places.old → F.pre f k }
    ensures { (g : ℕ → T) → ((k : ℕ) (x : T) → k < length places.old → F.post f k x → x ≡ g k) → places.new ≡ tabulate g (length places.old) }
{
    for (k, place) in places.iter_mut().enumerate() {
        *place = f(k);
    }
}

// The components of the first records, as many as there are places.
fn put_components(bytes: &[u8], list: &mut [u8])
    requires { 6 * length list.old ≤ length bytes.now }
    ensures { list.new ≡ tabulate (λ k. component_at bytes.now (offset_of k)) (length list.old) }
{
    write_each(list, |k| bytes[6 * k + 1]);
}

// Row 3's place. The 22nd is bad whatever it holds, so none behind it is looked at.
fn bad_place(bytes: &[u8]) -> Option<usize>
    ensures { result ≡ is.row_3 (components_of bytes.now) }
{
    let mut components = [0u8; 22];
    let front = &mut components[..(bytes.len() / 6).min(22)];
    put_components(bytes, front);
    row_3(front)
}

// The parts of the first n records, so that no digit is decoded twice. No vector of fixed room: the caller lends on the first n at once.
fn all_parts(bytes: &[u8], n: usize) -> [u32; 21]
    requires { (n ≤ 21) × (6 * n ≤ length bytes.now) }
    ensures { result ≡ filled (λ k. parts_at bytes.now (offset_of k)) n (replicate 21 0) }
{
    let mut all = [0; 21];
    write_each(&mut all[..n], |k| packed_decimal::parts_at(bytes, 6 * k));
    all
}

// 29 and 24, then the lists: of records that 28 and row 3 passed.
#[tactic(auto, using(crate::proofs::Laws::Reading::total_held), unfolding(crate::specs::Lists::read_answer, crate::specs::Lists::components_read, crate::specs::Lists::parts_read, crate::specs::Lists::fractions_read))]
fn read_records(
    bytes: &[u8],
    list: &mut [u8],
    parts: &mut [u32],
    fractions: &mut [f64],
) -> Result<usize, Refusal>
    requires { (ltb (wrong_offset bytes.now) (length bytes.now) ≡ false) × (is.bad_list (components_of bytes.now) ≡ false) }
    ensures answer { result ≡ is.read_of bytes.now list.old parts.old fractions.old }
    ensures components { list.new ≡ is.components_read bytes.now list.old parts.old fractions.old }
    ensures parts { parts.new ≡ is.parts_read bytes.now list.old parts.old fractions.old }
    ensures fractions { fractions.new ≡ is.fractions_read bytes.now list.old parts.old fractions.old }
{
    let n = bytes.len() / 6;
    let decoded = all_parts(bytes, n);
    let all = &decoded[..n];
    if packed_decimal::bad_total(all) {
        return Err(Refusal::Total);
    }
    if (list.len() < n) | ((parts.len() < n) | (fractions.len() < n)) {
        return Err(Refusal::TooShort { needed: n });
    }
    put_components(bytes, &mut list[..n]);
    parts[..n].copy_from_slice(all);
    write_each(&mut fractions[..n], |k| packed_decimal::fraction(all[k]));
    Ok(n)
}

// Components, parts and fractions of a chromatograph's list; how many records there are. Three slices, as the C interface lends them.
#[tactic(auto, using(gerg_model::proofs::Laws::First::some_told, gerg_model::proofs::Laws::First::none_told), unfolding(crate::specs::Lists::row_3, crate::specs::Lists::read_answer, crate::specs::Lists::components_read, crate::specs::Lists::parts_read, crate::specs::Lists::fractions_read))]
pub fn read_list(
    bytes: &[u8],
    list: &mut [u8],
    parts: &mut [u32],
    fractions: &mut [f64],
) -> Result<usize, Refusal>
    ensures answer { result ≡ is.read_of bytes.now list.old parts.old fractions.old }
    ensures components { list.new ≡ is.components_read bytes.now list.old parts.old fractions.old }
    ensures parts { parts.new ≡ is.parts_read bytes.now list.old parts.old fractions.old }
    ensures fractions { fractions.new ≡ is.fractions_read bytes.now list.old parts.old fractions.old }
{
    let wrong = packed_decimal::wrong_offset(bytes);
    let bad = bad_place(bytes);
    if let Some(offset) = wrong {
        return Err(Refusal::Record { offset });
    }
    if let Some(place) = bad {
        return Err(Refusal::Components { place });
    }
    read_records(bytes, list, parts, fractions)
}
