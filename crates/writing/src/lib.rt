// Writing a message: from a value to bytes and a bit length, or to the refusal that document 01's order gives.
//
// `write` and `write_at` equal `write_of` (specs/Writing) for every profile, value and area: the answer and every byte. The files go
// from small to large: element, address, group, area, ack, part, body. Each function writes one codec's bits and answers the next
// position, whether the area holds them or not; so a first writing into no area gives the length, and 14 comes before any byte is
// touched. The round trips with `read` are in proofs/RoundTrips. That the value is valid is tested once, and asked of each after it; area and
// position are handed on as two, as each contract (`Wrote`) states them.
#![tactic(auto)]

ghost use Rattle.std.specs.Prelude.{◌≡◌, ◌+◌, ◌≤◌, true, length};
ghost use Rattle.validity.specs.Validity.{valid_of};
ghost use Rattle.writing.specs.Wrote.{Wrote};
ghost use Rattle.writing.specs.Writing.{bits_of, bytes_for, lay_of, lay_in, write_valid, write_of, written_of, area_of};

use codec::Stop;
use message::Value;
use profile::{Air, Profile};

mod ack;
mod address;
mod area;
mod body;
mod element;
mod group;
mod part;

// The message from the first byte of the area on: its length in bits, or a refusal.
pub fn write(profile: Profile, value: Value, out: &mut [u8]) -> Result<usize, Stop>
    ensures { (result ≡ written_of (write_of profile value out.old 0))
        × (out.new ≡ area_of out.old (write_of profile value out.old 0)) }
{
    write_at(profile, value, out, 0)
}

// The message from the byte `start` of the area on.
pub fn write_at(profile: Profile, value: Value, out: &mut [u8], start: u16) -> Result<usize, Stop>
    ensures { (result ≡ written_of (write_of profile value out.old start))
        × (out.new ≡ area_of out.old (write_of profile value out.old start)) }
{
    if !profile::profile_ok(profile) {
        return Err(codec::refuse(1));
    }
    write_valid(profile, value, out, start)
}

fn write_valid(profile: Profile, value: Value, out: &mut [u8], start: u16) -> Result<usize, Stop>
    ensures { (result ≡ written_of (write_valid profile.air value out.old start))
        × (out.new ≡ area_of out.old (write_valid profile.air value out.old start)) }
{
    if !validity::valid(profile, value) {
        return Err(codec::refuse(22));
    }
    write_in(profile.air, value, out, start)
}

fn write_in(air: Air, value: Value, out: &mut [u8], start: u16) -> Result<usize, Stop>
    requires { valid_of air value ≡ true }
    ensures { (result ≡ written_of (lay_in out.old start (bits_of air value)))
        × (out.new ≡ area_of out.old (lay_in out.old start (bits_of air value))) }
{
    let bits = length_of(air, value);
    if start as usize + (bits + 7) / 8 > out.len() {
        return Err(codec::refuse(14));
    }
    lay(air, value, out, start);
    Ok(bits)
}

// How many bits the message has: where its writing ends that starts at 0, into no area to speak of.
fn length_of(air: Air, value: Value) -> usize
    requires { valid_of air value ≡ true }
    ensures { result ≡ length (bits_of air value) }
{
    let mut nowhere = [0; 1];
    write_message(air, value, &mut nowhere, 0)
}

fn lay(air: Air, value: Value, out: &mut [u8], start: u16)
    requires { (valid_of air value ≡ true) × (start + bytes_for (length (bits_of air value)) ≤ length out.old) }
    ensures { out.new ≡ lay_of out.old start (bits_of air value) }
{
    let next = write_message(air, value, out, 8 * (start as usize));
    bits::pad(out, next);
}

fn write_message(air: Air, value: Value, out: &mut [u8], at: usize) -> usize
    requires { valid_of air value ≡ true }
    ensures { Wrote out.old out.new at result (bits_of air value) }
{
    let p = element::byte(out, at, 6, air.ss);
    let q = element::byte(out, p, 5, value.pdu);
    body::write_body(air, value, out, q)
}
