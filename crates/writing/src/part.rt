// One part of a message. `made` is what the parts before it make of a blank value: a mask is as long as the users there say.
ghost use Rattle.writing.specs.Parts.{part_bits};
ghost use Rattle.writing.specs.Wrote.{Wrote};

use crate::{ack, address, area, element, group};
use message::{Group, Part, Value};
use profile::Air;

pub(crate) fn write_part(
    air: Air,
    made: Value,
    part: Part,
    v: Value,
    out: &mut [u8],
    at: usize,
) -> usize
    ensures { Wrote out.old out.new at result (part_bits air made part v) }
{
    match part {
        Part::Nothing => at,
        Part::Number(place) => {
            element::word(
                out,
                at,
                message::width_of(place),
                message::number_at(v, place),
            )
        }
        Part::Users => group::write_group(air, v.users, out, at),
        Part::User(place) => address::write_address(message::address_at(v.users, place), out, at),
        Part::Masked => {
            let count = message::span_of(air, made.users).min(Group::IDENTITIES);
            ack::write_masked(count, v.masked, v.mask, out, at)
        }
        Part::Result => ack::write_result(
            message::number_at(v, message::RESULT_AT),
            message::number_at(v, message::REASON_AT),
            out,
            at,
        ),
        Part::Dispatchers => group::write_group(air, v.dispatchers, out, at),
        Part::Dispatcher => address::write_address(message::address_at(v.dispatchers, 0), out, at),
        Part::Interrogation => ack::write_state(message::state_in(v), out, at),
        Part::Sources => group::write_group(air, v.lists.sources, out, at),
        Part::Destinations => group::write_group(air, v.lists.destinations, out, at),
        Part::Areas => area::write_areas(air, v.lists.areas, out, at),
    }
}
