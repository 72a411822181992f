// A range and its areas in fifteen places.
ghost use Rattle.std.specs.Prelude.{◌≡◌, ◌≤◌};
ghost use Rattle.message.specs.Groups.{addresses_in};
ghost use Rattle.message.specs.Areas.{area_places_c, area_list_c, areas_c};

use crate::group;
use message::Areas;
use profile::{Air, Meaning};

pub(crate) fn areas_ok(air: Air, areas: Areas) -> bool
    ensures { result ≡ (areas_c air).ok areas }
{
    group::range_ok(air, true, areas.range)
        && list_ok(profile::meaning_of(air.meanings, areas.range), areas.areas)
}

// As many areas as the meaning has, and as a range not refused with 11.
fn list_ok(m: Meaning, list: [u8; 15]) -> bool
    requires { addresses_in m ≤ 15 }
    ensures { result ≡ (area_list_c m).ok list }
{
    places_ok(list, message::addresses_in(m)) && message::areas_rise(m, list)
}

// The first `count` places have an area of four bits, the others none. Not one with `group::places_ok`: the two tests are all there is to it.
fn places_ok(list: [u8; 15], count: usize) -> bool
    requires { count ≤ 15 }
    ensures { result ≡ (area_places_c count).ok list }
{
    list[count..].iter().all(|a| *a == 0) && list[..count].iter().all(|a| *a < 16)
}
