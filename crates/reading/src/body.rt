// What each message has after the first 11 bits: its row's parts, one after the other, then its options.
ghost use Rattle.std.specs.Prelude.{◌≡◌};
ghost use Rattle.bits.specs.Fields.{bit_at};
ghost use Rattle.codec.specs.Taking.{outcome_of};
ghost use Rattle.message.specs.Messages.{body_c};
ghost use Rattle.reading.specs.Parts.{parts_read};

use crate::{option, part};
use codec::Stop;
use message::{Slot, Value};
use profile::Air;

#[tactic(auto, using(crate::proofs::RowLaws::body_row))]
pub(crate) fn read_body(
    air: Air,
    pdu: u8,
    buf: &[u8],
    bits: usize,
    at: usize,
) -> Result<(Value, usize), Stop>
    ensures { outcome_of result ≡ (body_c air pdu).read (bit_at buf.now) bits at }
{
    let row = message::row_of(pdu);
    let (value, p) = read_parts(
        air,
        row.parts,
        row.count,
        message::blank(pdu),
        buf,
        bits,
        at,
    )?;
    option::read_options(air, row.optional, row.options, value, buf, bits, p)
}

fn read_parts(
    air: Air,
    parts: [Slot; 6],
    count: u8,
    empty: Value,
    buf: &[u8],
    bits: usize,
    at: usize,
) -> Result<(Value, usize), Stop>
    ensures { outcome_of result ≡ parts_read air empty count parts (bit_at buf.now) bits at }
{
    let mut value = empty;
    let mut next = at;
    for i in 0..(count as usize).min(6) {
        let (with, p) = part::read_part(air, value, parts[i].part, buf, bits, next)?;
        value = with;
        next = p;
    }
    Ok((value, next))
}
