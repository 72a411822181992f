// What each message has after the first 11 bits: its row's parts, one after the other, then its options behind one O-bit.
ghost use Rattle.std.specs.Prelude.{◌≡◌};
ghost use Rattle.message.specs.Rows.{first_parts, parts_of, options_of};
ghost use Rattle.message.specs.Messages.{body_c};
ghost use Rattle.writing.specs.Parts.{option_bits, each_bits, options_bits, parts_bits};
ghost use Rattle.writing.specs.Wrote.{Wrote};

use crate::{element, part};
use message::{Part, Row, Slot, Value};
use profile::Air;

pub(crate) fn write_body(air: Air, value: Value, out: &mut [u8], at: usize) -> usize
    ensures { Wrote out.old out.new at result ((body_c air value.pdu).bits value) }
{
    write_parts(
        air,
        message::row_of(value.pdu),
        message::blank(value.pdu),
        value,
        out,
        at,
    )
}

// `made` is what the parts so far make of the blank value.
fn write_parts(air: Air, row: Row, blank: Value, v: Value, out: &mut [u8], at: usize) -> usize
    ensures { Wrote out.old out.new at result (parts_bits air blank (parts_of row) (options_of row) v) }
{
    let mut made = blank;
    let mut next = at;
    for slot in &row.parts[..usize::from(row.count).min(6)] {
        next = part::write_part(air, made, slot.part, v, out, next);
        made = message::copied(slot.part, v, made);
    }
    write_options(air, row.options, row.optional, made, v, out, next)
}

// The O-bit says whether one of the options is there; without it none has a P-bit. A row without options has no O-bit.
fn write_options(
    air: Air,
    count: u8,
    optional: [Slot; 7],
    parts: Value,
    v: Value,
    out: &mut [u8],
    at: usize,
) -> usize
    ensures { Wrote out.old out.new at result (options_bits air parts (first_parts count optional) v) }
{
    let many = usize::from(count).min(7);
    if many == 0 {
        return at;
    }
    if (0..many).any(|option| message::given_at(v, option)) {
        let p = element::bit(out, at, true);
        return write_each(air, count, optional, parts, v, out, p);
    }
    element::bit(out, at, false)
}

// `made` is what the parts, and the options so far, make of the blank value.
fn write_each(
    air: Air,
    count: u8,
    optional: [Slot; 7],
    parts: Value,
    v: Value,
    out: &mut [u8],
    at: usize,
) -> usize
    ensures { Wrote out.old out.new at result (each_bits air 0 parts (first_parts count optional) v) }
{
    let mut made = parts;
    let mut next = at;
    for (option, slot) in optional[..usize::from(count).min(7)].iter().enumerate() {
        next = write_option(air, option, made, slot.part, v, out, next);
        made = message::copied_option(option, slot.part, v, made);
    }
    next
}

// The P-bit says whether the option is there.
fn write_option(
    air: Air,
    option: usize,
    made: Value,
    part: Part,
    v: Value,
    out: &mut [u8],
    at: usize,
) -> usize
    ensures { Wrote out.old out.new at result (option_bits air option made part v) }
{
    if message::given_at(v, option) {
        let p = element::bit(out, at, true);
        return part::write_part(air, made, part, v, out, p);
    }
    element::bit(out, at, false)
}
