// The call `write_list`.
ghost use Rattle.std.specs.Prelude.{◌≡◌, ◌*◌, ◌≤◌, length};
ghost use Rattle.std.proofs.lemmas.List.Edits.{sets};
ghost use Rattle.packed_decimal.specs.Records.{records_of};
ghost use Rattle.chromatograph.specs.Lists as is;

use crate::row_3::row_3;
use gerg_refusals::Refusal;

#[tactic(auto, using(crate::proofs::Laws::Writing::stored_none, crate::proofs::Laws::Writing::stored_next))]
fn put_records(list: &[u8], parts: &[u32], out: &mut [u8])
    requires { (length parts.now ≡ length list.now) × (6 * length list.now ≤ length out.old) }
    ensures { out.new ≡ sets out.old 0 (records_of list.now parts.now (length list.now)) }
{
    for (k, (component, part)) in list.iter().zip(parts).enumerate() {
        packed_decimal::put_record(*component, *part, 6 * k, out);
    }
}

// The records of components and their parts; how many bytes they take.
#[tactic(auto, using(gerg_model::proofs::Laws::First::some_told, gerg_model::proofs::Laws::First::none_told), unfolding(crate::specs::Lists::row_3, crate::specs::Lists::write_answer, crate::specs::Lists::bytes_written))]
pub fn write_list(list: &[u8], parts: &[u32], out: &mut [u8]) -> Result<usize, Refusal>
    ensures answer { result ≡ is.write_answer list.now parts.now (length out.old) }
    ensures memory { out.new ≡ is.bytes_written list.now parts.now out.old }
{
    let n = list.len();
    let bad = row_3(list);
    let unlike = parts.len() != n;
    let other_total = packed_decimal::bad_total(parts);
    if let Some(place) = bad {
        return Err(Refusal::Components { place });
    }
    if unlike {
        return Err(Refusal::Fractions { place: n });
    }
    if other_total {
        return Err(Refusal::Total);
    }
    if out.len() < 6 * n {
        return Err(Refusal::TooShort { needed: 6 * n });
    }
    put_records(list, parts, out);
    Ok(6 * n)
}
