// A range and its addresses.
#![tactic(auto, using(crate::proofs::ReadLaws::range_few), unfolding(message::specs::Groups::group_c, message::specs::Groups::range_c, message::specs::Groups::addresses_c, message::specs::Groups::places_c))]

ghost use Rattle.std.specs.Prelude.{◌≡◌, ◌≤◌};
ghost use Rattle.bits.specs.Fields.{bit_at};
ghost use Rattle.codec.specs.Taking.{outcome_of};
ghost use Rattle.message.specs.Groups.{addresses_in, places_c, addresses_c, range_c, group_c};

use crate::{address, element};
use codec::Stop;
use message::{Address, Group};
use profile::{Air, Meaning};

// `none` says whether the range may mean "none", `external` whether these are destinations.
pub(crate) fn read_group(
    air: Air,
    none: bool,
    external: bool,
    buf: &[u8],
    bits: usize,
    at: usize,
) -> Result<(Group, usize), Stop>
    ensures { outcome_of result ≡ (group_c air none external).read (bit_at buf.now) bits at }
{
    let (range, p) = read_range(air, none, buf, bits, at)?;
    let (addresses, next) = read_addresses(
        external,
        profile::meaning_of(air.meanings, range),
        buf,
        bits,
        p,
    )?;
    Ok((Group { range, addresses }, next))
}

pub(crate) fn read_range(
    air: Air,
    none: bool,
    buf: &[u8],
    bits: usize,
    at: usize,
) -> Result<(u8, usize), Stop>
    ensures { outcome_of result ≡ (range_c air none).read (bit_at buf.now) bits at }
{
    let (range, p) = element::byte(message::RANGE, buf, bits, at, 4)?;
    if !message::allowed(none, profile::meaning_of(air.meanings, range)) {
        return Err(codec::refuse(9));
    }
    Ok((range, p))
}

fn read_addresses(
    external: bool,
    m: Meaning,
    buf: &[u8],
    bits: usize,
    at: usize,
) -> Result<([Address; 15], usize), Stop>
    requires { addresses_in m ≤ 15 }
    ensures { outcome_of result ≡ (addresses_c external m).read (bit_at buf.now) bits at }
{
    let (list, next) = read_places(external, message::addresses_in(m), buf, bits, at)?;
    if !message::ends_ok(m, list) {
        return Err(codec::refuse(11));
    }
    Ok((list, next))
}

// This loop and that of `area` read one codec each: one for both would take it as a closure, with a contract longer than the loop.
fn read_places(
    external: bool,
    count: usize,
    buf: &[u8],
    bits: usize,
    at: usize,
) -> Result<([Address; 15], usize), Stop>
    requires { count ≤ 15 }
    ensures { outcome_of result ≡ (places_c external count).read (bit_at buf.now) bits at }
{
    let mut list = [message::NOBODY; 15];
    let mut next = at;
    for i in 0..count {
        let (address, p) = address::read_address(external, buf, bits, next)?;
        list[i] = address;
        next = p;
    }
    Ok((list, next))
}
