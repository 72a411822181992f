// One part of a message, read into the value so far.
#![tactic(auto, using(crate::proofs::RowLaws::word_number), unfolding(crate::specs::Parts::part_read))]

ghost use Rattle.std.specs.Prelude.{◌≡◌};
ghost use Rattle.bits.specs.Fields.{bit_at};
ghost use Rattle.codec.specs.Taking.{outcome_of};
ghost use Rattle.message.specs.declared.Part.TheVariants.{Number, User, Masked, Result, Dispatchers, Dispatcher, Interrogation, Sources, Destinations, Areas};
ghost use Rattle.reading.specs.Parts.{part_read};

use crate::{ack, address, area, element, group};
use codec::Stop;
use message::{Part, Value};
use profile::Air;

pub(crate) fn read_part(
    air: Air,
    value: Value,
    part: Part,
    buf: &[u8],
    bits: usize,
    at: usize,
) -> Result<(Value, usize), Stop>
    ensures { outcome_of result ≡ part_read air value part (bit_at buf.now) bits at }
{
    match part {
        Part::Nothing => Ok((value, at)),
        Part::Number(place) => number_part(air, value, place, buf, bits, at),
        // here and in no function of its own: what hands the value on copies it
        Part::Users => {
            let (users, p) = group::read_group(air, false, false, buf, bits, at)?;
            Ok((message::with_users(value, users), p))
        }
        Part::User(place) => user_part(air, value, place, buf, bits, at),
        Part::Masked => mask_part(air, value, buf, bits, at),
        Part::Result => result_part(air, value, buf, bits, at),
        Part::Dispatchers => dispatchers_part(air, value, buf, bits, at),
        Part::Dispatcher => dispatcher_part(air, value, buf, bits, at),
        Part::Interrogation => state_part(air, value, buf, bits, at),
        Part::Sources => sources_part(air, value, buf, bits, at),
        Part::Destinations => destinations_part(air, value, buf, bits, at),
        Part::Areas => areas_part(air, value, buf, bits, at),
    }
}

fn number_part(
    air: Air,
    value: Value,
    place: u8,
    buf: &[u8],
    bits: usize,
    at: usize,
) -> Result<(Value, usize), Stop>
    ensures { outcome_of result ≡ part_read air value (Number place) (bit_at buf.now) bits at }
{
    let (n, p) = element::word(
        message::element_of(place),
        buf,
        bits,
        at,
        message::width_of(place),
    )?;
    Ok((message::with_number(value, place, n), p))
}

fn user_part(
    air: Air,
    value: Value,
    place: u8,
    buf: &[u8],
    bits: usize,
    at: usize,
) -> Result<(Value, usize), Stop>
    ensures { outcome_of result ≡ part_read air value (User place) (bit_at buf.now) bits at }
{
    let (a, p) = address::read_address(false, buf, bits, at)?;
    Ok((message::with_user(value, place, a), p))
}

// Users that were read are no more than 64.
fn mask_part(
    air: Air,
    value: Value,
    buf: &[u8],
    bits: usize,
    at: usize,
) -> Result<(Value, usize), Stop>
    ensures { outcome_of result ≡ part_read air value Masked (bit_at buf.now) bits at }
{
    let ((masked, mask), p) = ack::read_masked(
        message::span_of(air, value.users).min(64),
        buf,
        bits,
        at,
    )?;
    Ok((message::with_mask(value, masked, mask), p))
}

fn result_part(
    air: Air,
    value: Value,
    buf: &[u8],
    bits: usize,
    at: usize,
) -> Result<(Value, usize), Stop>
    ensures { outcome_of result ≡ part_read air value Result (bit_at buf.now) bits at }
{
    let ((result, reason), p) = ack::read_result(buf, bits, at)?;
    Ok((
        message::with_result(value, u32::from(result), u32::from(reason)),
        p,
    ))
}

// These and those below differ in what is set: one for all would take the setter as a closure, with a contract longer than they are.
fn dispatchers_part(
    air: Air,
    value: Value,
    buf: &[u8],
    bits: usize,
    at: usize,
) -> Result<(Value, usize), Stop>
    ensures { outcome_of result ≡ part_read air value Dispatchers (bit_at buf.now) bits at }
{
    let (dispatchers, p) = group::read_group(air, true, false, buf, bits, at)?;
    Ok((message::with_dispatchers(value, dispatchers), p))
}

fn dispatcher_part(
    air: Air,
    value: Value,
    buf: &[u8],
    bits: usize,
    at: usize,
) -> Result<(Value, usize), Stop>
    ensures { outcome_of result ≡ part_read air value Dispatcher (bit_at buf.now) bits at }
{
    let (a, p) = address::read_address(false, buf, bits, at)?;
    Ok((message::with_dispatcher(value, a), p))
}

fn state_part(
    air: Air,
    value: Value,
    buf: &[u8],
    bits: usize,
    at: usize,
) -> Result<(Value, usize), Stop>
    ensures { outcome_of result ≡ part_read air value Interrogation (bit_at buf.now) bits at }
{
    let (state, p) = ack::read_state(buf, bits, at)?;
    Ok((message::with_state(value, state), p))
}

fn sources_part(
    air: Air,
    value: Value,
    buf: &[u8],
    bits: usize,
    at: usize,
) -> Result<(Value, usize), Stop>
    ensures { outcome_of result ≡ part_read air value Sources (bit_at buf.now) bits at }
{
    let (sources, p) = group::read_group(air, true, false, buf, bits, at)?;
    Ok((message::with_sources(value, sources), p))
}

fn destinations_part(
    air: Air,
    value: Value,
    buf: &[u8],
    bits: usize,
    at: usize,
) -> Result<(Value, usize), Stop>
    ensures { outcome_of result ≡ part_read air value Destinations (bit_at buf.now) bits at }
{
    let (destinations, p) = group::read_group(air, true, true, buf, bits, at)?;
    Ok((message::with_destinations(value, destinations), p))
}

fn areas_part(
    air: Air,
    value: Value,
    buf: &[u8],
    bits: usize,
    at: usize,
) -> Result<(Value, usize), Stop>
    ensures { outcome_of result ≡ part_read air value Areas (bit_at buf.now) bits at }
{
    let (areas, p) = area::read_areas(air, buf, bits, at)?;
    Ok((message::with_areas(value, areas), p))
}
