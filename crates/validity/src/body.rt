// What each message has after the first 11 bits: each part of its row is good and each option that is given, and the value is what these
// make of a blank one.
ghost use Rattle.std.specs.Prelude.{◌≡◌};
ghost use Rattle.message.specs.Rows.{parts_of, options_of};
ghost use Rattle.message.specs.Messages.{body_c};
ghost use Rattle.message.specs.Values.{same_value};
ghost use Rattle.validity.specs.Parts.{option_ok, options_ok, parts_ok};

use crate::part;
use message::{Part, Row, Value};
use profile::Air;

pub(crate) fn body_ok(air: Air, pdu: u8, v: Value) -> bool
    ensures { result ≡ (body_c air pdu).ok v }
{
    parts_ok(air, message::row_of(pdu), message::blank(pdu), v)
}

// `made` is what the parts so far make of the blank value.
fn parts_ok(air: Air, row: Row, blank: Value, v: Value) -> bool
    ensures { result ≡ parts_ok air blank (parts_of row) (options_of row) v }
{
    let mut made = blank;
    for slot in &row.parts[..(row.count as usize).min(row.parts.len())] {
        if !part::part_ok(air, made, slot.part, v) {
            return false;
        }
        made = message::copied(slot.part, v, made);
    }
    options_ok(air, row, made, v)
}

// `made` is what the parts, and the options so far, make of the blank value.
fn options_ok(air: Air, row: Row, parts: Value, v: Value) -> bool
    ensures { result ≡ options_ok air 0 parts (options_of row) v }
{
    let mut made = parts;
    let options = &row.optional[..(row.options as usize).min(row.optional.len())];
    for (option, slot) in options.iter().enumerate() {
        if !option_ok(air, option, made, slot.part, v) {
            return false;
        }
        made = message::copied_option(option, slot.part, v, made);
    }
    same_value(made, v)
}

// Where the option is not there, `same_value` sees that it is zero.
fn option_ok(air: Air, option: usize, made: Value, part: Part, v: Value) -> bool
    ensures { result ≡ option_ok air option made part v }
{
    !message::given_at(v, option) || part::part_ok(air, made, part, v)
}

// The derived equality says just this (proofs/SameLaws).
fn same_value(a: Value, b: Value) -> bool
    ensures { result ≡ same_value a b }
{
    a == b
}
