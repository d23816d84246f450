// Row 3 of a list that may be empty.
ghost use Rattle.std.specs.Prelude.{◌≡◌};
ghost use Rattle.chromatograph.specs.Lists as is;

use gerg_model::mixture;

// Row 3's place, if it refuses the list: that of an empty list is 0. The first two tests of `check_mixture`, which answers a refusal and no place.
#[tactic(auto, unfolding(crate::specs::Lists::row_3, crate::specs::Lists::bad_list, crate::specs::Lists::bad_place, gerg_model::specs::MixtureCheck::found, gerg_model::specs::MixtureCheck::first_place))]
pub(crate) fn row_3(list: &[u8]) -> Option<usize>
    ensures { result ≡ is.row_3 list.now }
{
    if list.is_empty() {
        return Some(0);
    }
    mixture::first_bad_number(list)
}
