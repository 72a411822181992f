// A range and its areas.
ghost use Rattle.message.specs.Areas.{area_places_c, areas_c};
ghost use Rattle.writing.specs.Wrote.{Wrote};

use crate::element;
use message::Areas;
use profile::Air;

pub(crate) fn write_areas(air: Air, areas: Areas, out: &mut [u8], at: usize) -> usize
    ensures { Wrote out.old out.new at result ((areas_c air).bits areas) }
{
    let p = element::byte(out, at, 4, areas.range);
    let count = message::addresses_in(profile::meaning_of(air.meanings, areas.range));
    write_places(areas.areas, count, out, p)
}

// The first `count` areas, the first first; a list has fifteen.
fn write_places(list: [u8; 15], count: usize, out: &mut [u8], at: usize) -> usize
    ensures { Wrote out.old out.new at result ((area_places_c count).bits list) }
{
    let mut next = at;
    for a in &list[..count.min(15)] {
        next = element::byte(out, next, 4, *a);
    }
    next
}
