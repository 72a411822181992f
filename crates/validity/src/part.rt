// One part of a message. `made` is what the parts before it make of a blank value: a mask is as long as the users there say.
ghost use Rattle.std.specs.Prelude.{◌≡◌, ◌^◌, ◌≤◌, ltb};
ghost use Rattle.validity.specs.Parts.{part_ok};

use crate::{ack, address, area, group};
use message::{Part, Value};
use profile::Air;

// Users may not be "none"; dispatchers, sources, destinations and areas may.
pub(crate) fn part_ok(air: Air, made: Value, part: Part, v: Value) -> bool
    ensures { result ≡ part_ok air made part v }
{
    match part {
        Part::Nothing => true,
        Part::Number(place) => fits(message::number_at(v, place), message::width_of(place)),
        Part::Users => group::group_ok(air, false, v.users),
        Part::User(place) => address::address_ok(message::address_at(v.users, place)),
        Part::Masked => ack::masked_ok(message::span_of(air, made.users).min(64), v.masked, v.mask),
        Part::Result => ack::result_ok(
            message::number_at(v, message::RESULT_AT),
            message::number_at(v, message::REASON_AT),
        ),
        Part::Dispatchers => group::group_ok(air, true, v.dispatchers),
        Part::Dispatcher => address::address_ok(message::address_at(v.dispatchers, 0)),
        Part::Interrogation => ack::state_ok(message::state_in(v)),
        Part::Sources => group::group_ok(air, true, v.lists.sources),
        Part::Destinations => group::group_ok(air, true, v.lists.destinations),
        Part::Areas => area::areas_ok(air, v.lists.areas),
    }
}

// The number has so many bits.
fn fits(n: u32, width: usize) -> bool
    requires { width ≤ 32 }
    ensures { result ≡ ltb n (2 ^ width) }
{
    u64::from(n) < 1 << width
}
