// A message drawn from a value's bytes, the quick way. Nothing is proved of what is drawn but that drawing is safe and ends: `write_drawn`
// lets it out only where it is read back as these bytes (proofs/DrawLaws), so a function that draws has no contract but what a shift
// asks. Where each element lies in the bytes is in specs/Values of `layouts`; bits of a word stand from its top on.
ghost use Rattle.std.specs.Prelude.{◌<◌, ◌≤◌};

use crate::number;
use message::{Part, Slot};
use profile::{Kind, Meaning};

// Room for what is drawn: less than 4,096 bits (the longest message has 3,119), and eight bytes go out at a time.
pub(crate) const BYTES: usize = 520;

// ---- a message

// From the first bit of `out` on, which holds zeros: its length in bits.
pub(crate) fn draw(profile: &[u8], value: &[u8], out: &mut [u8]) -> usize
    ensures { result < 4096 }
{
    let pdu = number::byte_at(value, 0);
    let ss = number::byte_at(profile, 0);
    let at = put(out, 0, 11, u64::from(ss) << 58 | u64::from(pdu) << 53);
    let row = message::row_of(pdu);
    let at = draw_parts(profile, value, row.parts, row.count, out, at);
    draw_options(profile, value, row.optional, row.options, out, at) % 4096
}

fn draw_parts(
    profile: &[u8],
    value: &[u8],
    parts: [Slot; 6],
    count: u8,
    out: &mut [u8],
    at: usize,
) -> usize {
    let mut next = at;
    for i in 0..count as usize {
        if i >= 6 {
            return next;
        }
        next = draw_part(profile, value, parts[i].part, out, next);
    }
    next
}

// The O-bit, and if one of the options is there each behind its P-bit.
fn draw_options(
    profile: &[u8],
    value: &[u8],
    optional: [Slot; 7],
    count: u8,
    out: &mut [u8],
    at: usize,
) -> usize {
    if count == 0 {
        return at;
    }
    if none_given(value) {
        return put_bit(out, at, false);
    }
    let mut next = put_bit(out, at, true);
    for i in 0..count as usize {
        if i >= 7 {
            return next;
        }
        next = draw_option(profile, value, i, optional[i].part, out, next);
    }
    next
}

fn draw_option(
    profile: &[u8],
    value: &[u8],
    option: usize,
    part: Part,
    out: &mut [u8],
    at: usize,
) -> usize {
    if given_at(value, option) {
        let next = put_bit(out, at, true);
        return draw_part(profile, value, part, out, next);
    }
    put_bit(out, at, false)
}

fn none_given(value: &[u8]) -> bool {
    number::byte_at(value, 121) == 0 && bits::eight(value, 228) >> 16 == 0
}

fn given_at(value: &[u8], option: usize) -> bool {
    if option == 0 {
        return number::byte_at(value, 121) != 0;
    }
    number::byte_at(value, after(227, option)) != 0
}

// ---- its parts

fn draw_part(profile: &[u8], value: &[u8], part: Part, out: &mut [u8], at: usize) -> usize {
    match part {
        Part::Nothing => at,
        Part::Number(place) => draw_number(value, place, out, at),
        Part::Users => draw_group(profile, value, 1, out, at),
        Part::User(place) => draw_address(value, user_at(place), out, at),
        Part::Masked => draw_mask(profile, value, out, at),
        Part::Result => draw_result(value, out, at),
        Part::Dispatchers => draw_group(profile, value, 122, out, at),
        Part::Dispatcher => draw_address(value, 123, out, at),
        Part::Interrogation => draw_state(value, out, at),
        Part::Sources => draw_group(profile, value, 243, out, at),
        Part::Destinations => draw_group(profile, value, 349, out, at),
        Part::Areas => draw_areas(profile, value, out, at),
    }
}

fn draw_number(value: &[u8], place: u8, out: &mut [u8], at: usize) -> usize {
    let width = message::width_of(place) % 64;
    put(out, at, width, number_at(value, place) << (64 - width) % 64)
}

fn number_at(value: &[u8], place: u8) -> u64 {
    match place {
        message::IDENTIFIER_AT => bits::eight(value, 119) >> 48,
        message::CAUSE_AT => u64::from(number::byte_at(value, 118)),
        message::MNI_AT => bits::eight(value, 234) >> 40,
        // areas, basic services and types, in their places' order
        _ => u64::from(number::byte_at(value, after(232, place as usize))),
    }
}

fn user_at(place: u8) -> usize {
    if place == 0 {
        return 2;
    }
    9
}

fn draw_group(profile: &[u8], value: &[u8], from: usize, out: &mut [u8], at: usize) -> usize {
    let range = number::byte_at(value, from);
    let next = put(out, at, 4, u64::from(range) << 60);
    draw_list(value, after(from, 1), count_of(profile, range), out, next)
}

// How many addresses or areas the range value has.
fn count_of(profile: &[u8], range: u8) -> usize {
    message::addresses_in(meaning_of(profile, range))
}

fn meaning_of(profile: &[u8], range: u8) -> Meaning {
    profile::meaning_from(number::byte_at(profile, after(6, range as usize)))
}

// What is held of the byte that an address begins in, and the address after it, are carried over: then the compiler knows nothing of them,
// and makes one load and one store of eight.
fn draw_list(value: &[u8], from: usize, count: usize, out: &mut [u8], at: usize) -> usize {
    let mut next = at;
    let mut held = u64::from(number::byte_at(out, at / 8)) << 56;
    let mut p = from;
    let mut word = bits::eight(value, p);
    for _ in 0..count {
        let width = address_bits(word);
        held = held | first_bits(word << 6, width) >> (next % 8);
        put_eight(out, next / 8, held);
        held = held << (next % 8 + width) / 8 * 8;
        next = after(next, width);
        p = after(p, 7);
        word = bits::eight(value, p);
    }
    next
}

// Kind, SSI and, but for kind 1, extension: in the bytes as on the air, but for the kind's six bits more.
fn draw_address(value: &[u8], from: usize, out: &mut [u8], at: usize) -> usize {
    let word = bits::eight(value, from);
    let width = address_bits(word);
    put(out, at, width, first_bits(word << 6, width))
}

fn address_bits(word: u64) -> usize
    ensures { (1 ≤ result) × (result ≤ 50) }
{
    if word >> 56 == 1 {
        return 26;
    }
    50
}

fn first_bits(word: u64, width: usize) -> u64
    requires { (1 ≤ width) × (width ≤ 64) }
{
    word >> (64 - width) << (64 - width)
}

fn draw_mask(profile: &[u8], value: &[u8], out: &mut [u8], at: usize) -> usize {
    if number::byte_at(value, 107) == 0 {
        return put_bit(out, at, false);
    }
    let next = put_bit(out, at, true);
    let mask = bits::eight(value, 108);
    let span = span_of(profile, value);
    if span > 32 {
        let half = put(out, next, 32, mask >> 32 << 32);
        return put(out, half, span - 32, mask << 32);
    }
    put(out, next, span, mask)
}

// How many identities the users are.
fn span_of(profile: &[u8], value: &[u8]) -> usize {
    let meaning = meaning_of(profile, number::byte_at(value, 1));
    match meaning.kind {
        Kind::FirstLast => span(bits::eight(value, 3) >> 40, bits::eight(value, 10) >> 40),
        Kind::Listed => meaning.count as usize,
        Kind::Nobody | Kind::Reserved => 0,
    }
}

// Its own, since a value's bytes may hold any numbers: cut to what a mask has.
fn span(first: u64, last: u64) -> usize {
    if last < first {
        return 0;
    }
    ((last - first) % 64) as usize + 1
}

fn draw_result(value: &[u8], out: &mut [u8], at: usize) -> usize {
    if number::byte_at(value, 116) == 0 {
        return put(out, at, 8, u64::from(number::byte_at(value, 117)) << 56);
    }
    put_bit(out, at, true)
}

fn draw_state(value: &[u8], out: &mut [u8], at: usize) -> usize {
    if number::byte_at(value, 116) == 0 {
        return put(out, at, 4, u64::from(number::byte_at(value, 117)) << 60);
    }
    let next = put_bit(out, at, true);
    let next = put(out, next, 1, u64::from(number::byte_at(value, 241)) << 63);
    let next = put(out, next, 1, u64::from(number::byte_at(value, 242)) << 63);
    let next = put(out, next, 2, u64::from(number::byte_at(value, 240)) << 62);
    put(out, next, 2, u64::from(number::byte_at(value, 239)) << 62)
}

fn draw_areas(profile: &[u8], value: &[u8], out: &mut [u8], at: usize) -> usize {
    let range = number::byte_at(value, 455);
    let mut next = put(out, at, 4, u64::from(range) << 60);
    let mut p: usize = 456;
    for _ in 0..count_of(profile, range) {
        next = put(out, next, 4, u64::from(number::byte_at(value, p)) << 60);
        p = after(p, 1);
    }
    next
}

// ---- bits and bytes

// So many of a word's first bits, from a position on: the position after them. The word's other bits are 0, and so become what follows.
fn put(out: &mut [u8], at: usize, width: usize, word: u64) -> usize {
    let held = u64::from(number::byte_at(out, at / 8)) << 56;
    put_eight(out, at / 8, held | word >> (at % 8));
    after(at, width)
}

fn put_bit(out: &mut [u8], at: usize, bit: bool) -> usize {
    put(out, at, 1, u64::from(bit) << 63)
}

// A position further on. It does not wrap in a message, and whether it does is nothing to prove.
fn after(at: usize, width: usize) -> usize {
    std::num::wrapping_add_usize(at, width)
}

// Nothing where they are not all there. (As `number::put_run` does; nothing is proved here but that they are.)
fn put_eight(out: &mut [u8], at: usize, word: u64) {
    if out.len() < 8 || at > out.len() - 8 {
        return;
    }
    let mut rest = word;
    for k in (0..8).rev() {
        out[at + k] = (rest % 256) as u8;
        rest /= 256;
    }
}
