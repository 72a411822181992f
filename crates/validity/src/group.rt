// A range and its addresses in fifteen places.
ghost use Rattle.std.specs.Prelude.{◌≡◌, false, ◌≤◌};
ghost use Rattle.message.specs.Groups.{addresses_in, places_c, addresses_c, range_c, group_c};

use crate::address;
use message::{Address, Group};
use profile::{Air, Meaning};

// `none` says whether "none" is good: not for users. Destinations are good as any other are.
pub(crate) fn group_ok(air: Air, none: bool, group: Group) -> bool
    ensures { result ≡ (group_c air none false).ok group }
{
    range_ok(air, none, group.range)
        && addresses_ok(
            profile::meaning_of(air.meanings, group.range),
            group.addresses,
        )
}

// The range number has 4 bits and would not be refused with 9.
pub(crate) fn range_ok(air: Air, none: bool, range: u8) -> bool
    ensures { result ≡ (range_c air none).ok range }
{
    range < 16 && message::allowed(none, profile::meaning_of(air.meanings, range))
}

// As many addresses as the meaning has, none refused with 10, and as a range not refused with 11.
fn addresses_ok(m: Meaning, list: [Address; 15]) -> bool
    requires { addresses_in m ≤ 15 }
    ensures { result ≡ (addresses_c false m).ok list }
{
    places_ok(list, message::addresses_in(m)) && message::ends_ok(m, list)
}

// The first `count` places have a good address, the others none.
fn places_ok(list: [Address; 15], count: usize) -> bool
    requires { count ≤ 15 }
    ensures { result ≡ (places_c false count).ok list }
{
    list[count..].iter().all(|a| address::is_nobody(*a))
        && list[..count].iter().all(|a| address::address_ok(*a))
}
