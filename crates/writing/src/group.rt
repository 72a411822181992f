// A range and its addresses.
ghost use Rattle.std.specs.Prelude.{true, false};
ghost use Rattle.message.specs.Groups.{places_c, group_c};
ghost use Rattle.writing.specs.Wrote.{Wrote};

use crate::{address, element};
use message::{Address, Group};
use profile::Air;

// All groups of addresses are written alike.
pub(crate) fn write_group(air: Air, group: Group, out: &mut [u8], at: usize) -> usize
    ensures { Wrote out.old out.new at result ((group_c air true false).bits group) }
{
    let p = element::byte(out, at, 4, group.range);
    let count = message::addresses_in(profile::meaning_of(air.meanings, group.range));
    write_places(group.addresses, count, out, p)
}

// The first `count` addresses, the first first; a list has fifteen. Areas have a loop of their own: what is shared by both is no more than a `for`.
fn write_places(list: [Address; 15], count: usize, out: &mut [u8], at: usize) -> usize
    ensures { Wrote out.old out.new at result ((places_c false count).bits list) }
{
    let mut next = at;
    for a in &list[..count.min(15)] {
        next = address::write_address(*a, out, next);
    }
    next
}
