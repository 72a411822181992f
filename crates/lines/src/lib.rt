// One line of the listing: from its bytes to what is printed after its number (document 01, "Bits and calls worked out").
//
// `said` equals `said_of` for every line. Of a line that comes in pieces the first 1,152 bytes are kept (`blocks`), more than a line of the
// right shape has, and `said_kept` of these says what the whole line says, however long it is (proofs/KeepLaws).
#![tactic(auto)]

ghost use Rattle.std.specs.Prelude.{◌≡◌, ◌+◌, ◌*◌, ◌/◌, ◌<◌, ◌≤◌, ◌++◌, length, take, drop};
ghost use Rattle.bits.specs.Fields.{bit_at};
ghost use Rattle.profile.specs.Sample.{sample};
ghost use Rattle.message.specs.Reading.{whole_of};
ghost use Rattle.lines.specs.Shape.{is_digit, hex_of, hex_at, line_with, after_digits, line_of};
ghost use Rattle.lines.specs.Saying.{name_of, refused_of, digit_of, position_of, broke_of, zeros_before, stop_of, answer_of, say_of, said_of, text_of};
ghost use Rattle.lines.specs.Parsing.{letter_worth, Heads, hex_up_to, pairs_in, Enough};

use codec::Stop;

// The first `len` of the bytes; the others are zero. (Fixed memory, no heap: `said` and `text_of` speak of it, and `listing` prints it.
// Not one with `Text` of blocks: `text_of` of each crate's specs/ is of its own size.)
#[derive(Clone, Copy)]
pub struct Text {
    pub len: usize,
    pub bytes: [u8; 20],
}

// The first `count` of the bytes; the others are zero, and all are where it is not good. (No Option: `hex_at` of specs/ and `script` speak
// of this type, and its bytes are zero where it is not good.)
#[derive(Clone, Copy)]
pub struct Hex {
    pub good: bool,
    pub count: usize,
    pub bytes: [u8; 512],
}

// The bit length that a line begins with, and where the line goes on after the space.
#[derive(Clone, Copy)]
struct Head {
    bits: usize,
    next: usize,
}

// What is printed for a line after its number.
pub fn said(line: &[u8]) -> Text
    ensures { result ≡ text_of (said_of line.now) }
{
    match head_of(line) {
        Some(head) => said_after(line, head.next, head.bits),
        None => refused(3),
    }
}

// The same for a line of this bit length whose hex digits begin at a position. The bytes that they make go into a room of 64, which leaves
// at least eight after them, or into a larger one.
fn said_after(line: &[u8], from: usize, bits: usize) -> Text
    requires { from ≤ length line.now }
    ensures { result ≡ text_of (say_of (line_with bits (hex_at line.now from))) }
{
    if !all_hex(line, from) || bits < 1 || bits > 4096 || (bits + 7) / 8 > (line.len() - from) / 2 {
        return refused(3);
    }
    if bits > 448 {
        return said_long(line, from, bits);
    }
    let mut room = [0u8; 64];
    said_in(line, from, bits, &mut room)
}

fn said_long(line: &[u8], from: usize, bits: usize) -> Text
    requires { Enough line.now from bits }
    ensures { result ≡ text_of (say_of (line_with bits (hex_at line.now from))) }
{
    let mut room = [0u8; 520];
    said_in(line, from, bits, &mut room)
}

// With a room for the bytes that the bits stand in.
fn said_in(line: &[u8], from: usize, bits: usize, room: &mut [u8]) -> Text
    requires { Enough line.now from bits × ((bits + 7) / 8 ≤ length room.old) }
    ensures { result ≡ text_of (say_of (line_with bits (hex_at line.now from))) }
{
    decode(line, from, (bits + 7) / 8, room);
    answered(room, bits)
}

// What is printed for a line that came in pieces.
pub fn said_kept(kept: blocks::Text) -> Text
    ensures { result ≡ text_of (said_of (take kept.len kept.bytes)) }
{
    said(&kept.bytes[..kept.len.min(1152)])
}

// ---- what is printed

// The message in the first `bits` bits.
fn answered(room: &[u8], bits: usize) -> Text
    requires { (1 ≤ bits) × ((bits ≤ 4096) × (bits ≤ 8 * length room.now)) }
    ensures { result ≡ text_of (answer_of (whole_of sample.air (bit_at room.now) bits)) }
{
    match reading::read_type(profile::sample_profile().air, room, bits) {
        Ok(pdu) => named(pdu),
        Err(stop) => stopped(stop),
    }
}

fn named(pdu: u8) -> Text
    ensures { result ≡ text_of (name_of pdu) }
{
    text_from(name(pdu))
}

#[tactic(auto, unfolding(crate::specs::Saying::name_of))]
fn name(pdu: u8) -> &'static [u8]
    ensures { (result.now ≡ name_of pdu) × (length result.now ≤ 20) }
{
    match pdu {
        2 => b"ACTIVATE",
        3 => b"ACTIVATE ACK",
        4 => b"DEACTIVATE",
        5 => b"DEACTIVATE ACK",
        8 => b"INTERROGATE",
        9 => b"INTERROGATE ACK",
        10 => b"INTERCEPTED",
        11 => b"REQUEST",
        12 => b"ACCEPT",
        13 => b"ACCEPTED",
        14 => b"CANCEL",
        15 => b"DIVERT",
        16 => b"DIVERTED",
        17 => b"REJECT",
        18 => b"REJECTED",
        // no message that is read has such a type
        _ => b"",
    }
}

fn text_from(bytes: &[u8]) -> Text
    requires { length bytes.now ≤ 20 }
    ensures { result ≡ text_of bytes.now }
{
    let mut room = [0; 20];
    let len = blocks::put(&mut room, 0, bytes);
    Text { len, bytes: room }
}

// A refusal; with a 4 the position where the element that did not fit begins.
fn stopped(stop: Stop) -> Text
    ensures { result ≡ text_of (stop_of stop) }
{
    if stop.number == 4 {
        return broke(stop.at);
    }
    refused(stop.number)
}

fn refused(number: u8) -> Text
    ensures { result ≡ text_of (refused_of number) }
{
    numbered(b"refused ", usize::from(number))
}

fn broke(at: usize) -> Text
    ensures { result ≡ text_of (broke_of at) }
{
    numbered(b"refused 4 at ", at)
}

// These words and the last four digits of a number, without zeros before it. By hand: no heap, and a text of twenty bytes (`text_of`).
fn numbered(words: &[u8], number: usize) -> Text
    requires { length words.now ≤ 16 }
    ensures { result ≡ text_of (words.now ++ position_of number) }
{
    let digits = [
        digit(number / 1000),
        digit(number / 100),
        digit(number / 10),
        digit(number),
    ];
    let mut bytes = [0; 20];
    let at = blocks::put(&mut bytes, 0, words);
    let len = blocks::put(&mut bytes, at, &digits[zeros_before(number)..]);
    Text { len, bytes }
}

// How many of four digits stand before the first that a number has.
fn zeros_before(number: usize) -> usize
    ensures { result ≡ zeros_before number }
{
    if number >= 1000 {
        0
    } else if number >= 100 {
        1
    } else if number >= 10 {
        2
    } else {
        3
    }
}

// The last digit of a number.
fn digit(n: usize) -> u8
    ensures { result ≡ digit_of n }
{
    (n % 10) as u8 + b'0'
}

// ---- the shape of a line

// The bit length, up to the first byte that is no digit.
fn head_of(line: &[u8]) -> Option<Head>
    ensures { Heads result line.now (line_of line.now) }
{
    let mut bits = 0;
    for i in 0..line.len() {
        let b = line[i];
        if !is_digit(b) {
            return after_digits(line, i, bits, b);
        }
        if i >= 4 {
            return None;
        }
        bits = bits * 10 + usize::from(hex_digit(b));
    }
    None
}

// One space after the first digit.
fn after_digits(line: &[u8], seen: usize, bits: usize, b: u8) -> Option<Head>
    requires { seen < length line.now }
    ensures { Heads result line.now (after_digits seen bits b (drop (seen + 1) line.now)) }
{
    if b != b' ' || seen < 1 {
        return None;
    }
    Some(Head {
        bits,
        next: seen + 1,
    })
}

// Pairs of upper-case hex digits from a position to the end, at most 512; not good where anything else stands there.
pub fn hex_at(line: &[u8], from: usize) -> Hex
    ensures { result ≡ hex_at line.now from }
{
    let mut bytes = [0u8; 512];
    if from > line.len() {
        return Hex {
            good: true,
            count: 0,
            bytes,
        };
    }
    if !all_hex(line, from) {
        return Hex {
            good: false,
            count: 0,
            bytes,
        };
    }
    let count = (line.len() - from) / 2;
    decode(line, from, count, &mut bytes);
    Hex {
        good: true,
        count,
        bytes,
    }
}

// Whether only hex digits stand from a position to the end, an even number and at most 1,024.
#[tactic(auto, using(crate::proofs::HexLaws::all_hex_laws))]
fn all_hex(line: &[u8], from: usize) -> bool
    requires { from ≤ length line.now }
    ensures { result ≡ (hex_at line.now from).good }
{
    let n = line.len() - from;
    if n % 2 != 0 || n > 1024 {
        return false;
    }
    each_hex(line, from, n)
}

// Whether `count` bytes from a position on are hex digits. It looks at each, and leaves off at none: so the compiler can take many at a
// time.
fn each_hex(line: &[u8], from: usize, count: usize) -> bool
    requires { from + count ≤ length line.now }
    ensures { result ≡ hex_up_to line.now from count }
{
    let mut good = true;
    for i in 0..count {
        good &= hex_digit(line[from + i]) < 16;
    }
    good
}

// The bytes that the first `count` pairs of hex digits from a position on make, at the front of a room. What is no hex digit counts as 0.
fn decode(line: &[u8], from: usize, count: usize, room: &mut [u8])
    requires { (from + 2 * count ≤ length line.now) × (count ≤ length room.old) }
    ensures { room.new ≡ pairs_in room.old line.now from count }
{
    for k in 0..count {
        let x = hex_digit(line[from + 2 * k]);
        let y = hex_digit(line[from + 2 * k + 1]);
        room[k] = x % 16 * 16 + y % 16;
    }
}

#[tactic(auto, using(crate::proofs::ShapeLaws::both_is), unfolding(crate::specs::Shape::is_digit))]
pub fn is_digit(b: u8) -> bool
    ensures { result ≡ is_digit b }
{
    b.is_ascii_digit()
}

// The worth of a hex digit, or 16 (and no Option, as `hex_of` of specs/ has it: `each_hex` compares many at a time). Digits and letters take one test each, since a byte below a range wraps round to above it. (A match on
// their ranges takes two: tried, some 100 instructions more for a line.)
pub fn hex_digit(b: u8) -> u8
    ensures { result ≡ hex_of b }
{
    let past = b.wrapping_sub(b'0');
    if past < 10 {
        return past;
    }
    letter_worth(b.wrapping_sub(b'A'))
}

// The worth of the hex digit that stands so far past A, or 16.
fn letter_worth(past: u8) -> u8
    ensures { result ≡ letter_worth past }
{
    if past < 6 { past + 10 } else { 16 }
}
