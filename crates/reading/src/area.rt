// A range and its areas.
#![tactic(auto, using(crate::proofs::ReadLaws::range_few), unfolding(message::specs::Areas::areas_c, message::specs::Areas::area_list_c, message::specs::Areas::area_places_c))]

ghost use Rattle.std.specs.Prelude.{◌≡◌, ◌≤◌};
ghost use Rattle.bits.specs.Fields.{bit_at};
ghost use Rattle.codec.specs.Taking.{outcome_of};
ghost use Rattle.message.specs.Groups.{addresses_in};
ghost use Rattle.message.specs.Areas.{area_places_c, area_list_c, areas_c};

use crate::{element, group};
use codec::Stop;
use message::Areas;
use profile::{Air, Meaning};

pub(crate) fn read_areas(
    air: Air,
    buf: &[u8],
    bits: usize,
    at: usize,
) -> Result<(Areas, usize), Stop>
    ensures { outcome_of result ≡ (areas_c air).read (bit_at buf.now) bits at }
{
    let (range, p) = group::read_range(air, true, buf, bits, at)?;
    let (areas, next) = read_area_list(profile::meaning_of(air.meanings, range), buf, bits, p)?;
    Ok((Areas { range, areas }, next))
}

fn read_area_list(m: Meaning, buf: &[u8], bits: usize, at: usize) -> Result<([u8; 15], usize), Stop>
    requires { addresses_in m ≤ 15 }
    ensures { outcome_of result ≡ (area_list_c m).read (bit_at buf.now) bits at }
{
    let (list, next) = read_area_places(message::addresses_in(m), buf, bits, at)?;
    if !message::areas_rise(m, list) {
        return Err(codec::refuse(11));
    }
    Ok((list, next))
}

fn read_area_places(
    count: usize,
    buf: &[u8],
    bits: usize,
    at: usize,
) -> Result<([u8; 15], usize), Stop>
    requires { count ≤ 15 }
    ensures { outcome_of result ≡ (area_places_c count).read (bit_at buf.now) bits at }
{
    let mut list = [0; 15];
    let mut next = at;
    for i in 0..count {
        let (area, p) = element::byte(message::AREA, buf, bits, next, 4)?;
        list[i] = area;
        next = p;
    }
    Ok((list, next))
}
