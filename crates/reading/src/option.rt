// The options of a row: one O-bit, and if it is 1 each behind its P-bit; 12 if none of these is 1.
#![tactic(auto, using(crate::proofs::RowLaws::options_zero, crate::proofs::RowLaws::options_some), unfolding(crate::specs::Parts::option_read, crate::specs::Parts::behind_read))]

ghost use Rattle.std.specs.Prelude.{◌≡◌, false};
ghost use Rattle.bits.specs.Fields.{bit_at};
ghost use Rattle.codec.specs.Taking.{outcome_of};
ghost use Rattle.reading.specs.Parts.{option_read, each_read, behind_read, options_read};

use crate::{element, part};
use codec::Stop;
use message::{Part, Slot, Value};
use profile::Air;

pub(crate) fn read_options(
    air: Air,
    optional: [Slot; 7],
    count: u8,
    value: Value,
    buf: &[u8],
    bits: usize,
    at: usize,
) -> Result<(Value, usize), Stop>
    ensures { outcome_of result ≡ options_read air value count optional (bit_at buf.now) bits at }
{
    if count == 0 {
        return Ok((value, at));
    }
    let (o, p) = element::bit(message::O_BIT, buf, bits, at)?;
    if o {
        return behind(air, optional, count, value, buf, bits, p);
    }
    Ok((value, p))
}

// After an O-bit of 1.
fn behind(
    air: Air,
    optional: [Slot; 7],
    count: u8,
    value: Value,
    buf: &[u8],
    bits: usize,
    at: usize,
) -> Result<(Value, usize), Stop>
    ensures { outcome_of result ≡ behind_read air value count optional (bit_at buf.now) bits at }
{
    let ((some, with), p) = read_each(air, optional, count, value, buf, bits, at)?;
    if !some {
        return Err(codec::refuse(12));
    }
    Ok((with, p))
}

// Whether one of them is there, and the value with them.
fn read_each(
    air: Air,
    optional: [Slot; 7],
    count: u8,
    empty: Value,
    buf: &[u8],
    bits: usize,
    at: usize,
) -> Result<((bool, Value), usize), Stop>
    ensures { outcome_of result ≡ each_read air 0 false empty count optional (bit_at buf.now) bits at }
{
    let mut some = false;
    let mut value = empty;
    let mut next = at;
    for i in 0..(count as usize).min(7) {
        let ((there, with), p) = read_option(air, i, value, optional[i].part, buf, bits, next)?;
        some = some || there;
        value = with;
        next = p;
    }
    Ok(((some, value), next))
}

// The P-bit, and the part if it is 1.
fn read_option(
    air: Air,
    i: usize,
    value: Value,
    part: Part,
    buf: &[u8],
    bits: usize,
    at: usize,
) -> Result<((bool, Value), usize), Stop>
    ensures { outcome_of result ≡ option_read air i value part (bit_at buf.now) bits at }
{
    let (there, p) = element::bit(message::P_BIT, buf, bits, at)?;
    if there {
        let (with, q) = part::read_part(air, value, part, buf, bits, p)?;
        return Ok(((true, message::with_given(with, i)), q));
    }
    Ok(((false, value), p))
}
