// One row: its value is written, read and written again, and the lines say what came.
use codec::Stop;
use message::Value;
use std::fmt;
use std::fmt::Write;

// The value into an area of so many bytes, at most 96.
pub(crate) fn row(number: u64, value: Value, bytes: usize) {
    if bytes > 96 {
        return;
    }
    let mut area = [0xAAu8; 96];
    write(number, value, &mut area[..bytes]);
}

fn write(number: u64, value: Value, area: &mut [u8]) {
    let written = writing::write(profile::sample_profile(), value, area);
    say(number, value.pdu, written, area);
}

fn say(number: u64, pdu: u8, written: Result<usize, Stop>, area: &[u8]) {
    match written {
        Ok(bits) => {
            line(number, name(pdu), bits, area);
            read(number, bits, area);
        }
        Err(stop) => line(number, "refused", stop.number as usize, area),
    }
}

fn read(number: u64, bits: usize, area: &[u8]) {
    let value = reading::read(profile::sample_profile(), area, bits).unwrap_or(message::blank(0));
    if area.len() > 96 {
        return;
    }
    let mut second = [0x55u8; 96];
    write_again(number, value, &mut second[..area.len()]);
}

fn write_again(number: u64, value: Value, second: &mut [u8]) {
    let bits = writing::write(profile::sample_profile(), value, second).unwrap_or(0);
    line(number, "again", bits, second);
}

// ---- its lines

// Standard output, a write for each part of a line. By `println!` one more function would be trusted, which reads errno, and a line would
// end at a write that fails; here it goes on.
#[derive(Drop)]
struct Out;

impl Write for Out {
    fn write_str(&mut self, s: &str) -> fmt::Result {
        io::write_all(1, s.as_bytes());
        Ok(())
    }
}

// Both digits of a byte are one part; `{:02X}` would make a zero in front one of its own.
fn line(number: u64, word: &str, n: usize, area: &[u8]) {
    let mut out = Out;
    let _ = write!(out, "{number} {word} {n} ");
    for byte in area {
        io::write_all(1, &[digit(byte / 16), digit(byte % 16)]);
    }
    let _ = writeln!(out);
}

fn digit(x: u8) -> u8 {
    let digit = char::from_digit(x as u32, 16).unwrap_or('?');
    digit.to_ascii_uppercase() as u8
}

// `lines` has the same as bytes, for itself alone.
fn name(pdu: u8) -> &'static str {
    match pdu {
        2 => "ACTIVATE",
        3 => "ACTIVATE ACK",
        4 => "DEACTIVATE",
        5 => "DEACTIVATE ACK",
        8 => "INTERROGATE",
        9 => "INTERROGATE ACK",
        10 => "INTERCEPTED",
        11 => "REQUEST",
        12 => "ACCEPT",
        13 => "ACCEPTED",
        14 => "CANCEL",
        15 => "DIVERT",
        16 => "DIVERTED",
        17 => "REJECT",
        18 => "REJECTED",
        _ => "",
    }
}
