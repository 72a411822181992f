// Reading a message: from bytes and a bit length to a value, or to the refusal that document 01's order gives.
//
// `read` equals `read_of` of `message` for every profile, buffer and length. The files go from small to large: element, address, group,
// area, ack, part, option, body, header. Each function reads one codec, answers with what was read and the next position, and hands the
// refusal of what it calls on unchanged, by `?`. Bytes, bit length and position are handed on one by one, as a codec's `read f n at` takes
// them and each contract states them. `read_type` gives the same refusals, and of a message its type alone: walk goes along it and makes no
// value. What the proofs of a file go by stands in the attribute at its head: the definitions that are opened, and the laws.
#![tactic(auto)]

ghost use Rattle.std.specs.Prelude.{◌≡◌};
ghost use Rattle.bits.specs.Fields.{bit_at};
ghost use Rattle.message.specs.Reading.{whole_of, length_ok, read_bits, read_of};
ghost use Rattle.reading.specs.Answers.{reading_of};
ghost use Rattle.reading.specs.Walks.{type_in, type_of, whole_walk};

use codec::Stop;
use message::Value;
use profile::{Air, Profile};

mod ack;
mod address;
mod area;
mod body;
mod element;
mod group;
mod header;
mod option;
mod part;
mod walk;

// The value of the message in the first `bits` bits, or the refusal.
#[tactic(auto, unfolding(message::specs::Reading::read_of, crate::specs::Answers::reading_of))]
pub fn read(profile: Profile, message: &[u8], bits: usize) -> Result<Value, Stop>
    ensures { result ≡ reading_of (read_of profile message.now bits) }
{
    if !profile::profile_ok(profile) {
        return Err(codec::refuse(1));
    }
    read_bits(profile.air, message, bits)
}

#[tactic(auto, unfolding(message::specs::Reading::read_bits, crate::specs::Answers::reading_of))]
fn read_bits(air: Air, message: &[u8], bits: usize) -> Result<Value, Stop>
    ensures { result ≡ reading_of (read_bits air message.now bits) }
{
    if !length_ok(message, bits) {
        return Err(codec::refuse(3));
    }
    read_whole(air, message, bits)
}

// 3 does not come: some bits, at most 4,096, and no more than the bytes have.
#[tactic(auto, unfolding(message::specs::Reading::length_ok, codec::specs::Codec::both))]
fn length_ok(message: &[u8], bits: usize) -> bool
    ensures { result ≡ length_ok message.now bits }
{
    (1..=4096).contains(&bits) && (bits + 7) / 8 <= message.len()
}

#[tactic(auto, unfolding(message::specs::Reading::whole_of, message::specs::Messages::message_c, crate::specs::Answers::reading_of))]
fn read_whole(air: Air, message: &[u8], bits: usize) -> Result<Value, Stop>
    ensures { result ≡ reading_of (whole_of air (bit_at message.now) bits) }
{
    let ((_, pdu), p) = header::read_header(air.ss, message, bits, 0)?;
    let (value, next) = body::read_body(air, pdu, message, bits, p)?;
    if next != bits {
        return Err(codec::refuse(13));
    }
    Ok(value)
}

// ---- what a message is, without its value

// The PDU type of the message in the first `bits` bits, or the refusal that `read` gives once the profile is good.
#[tactic(auto, using(crate::proofs::WalkLaws::type_short, crate::proofs::WalkLaws::type_walked), unfolding(crate::specs::Walks::type_of))]
pub fn read_type(air: Air, message: &[u8], bits: usize) -> Result<u8, Stop>
    ensures { result ≡ type_of (type_in (read_bits air message.now bits)) }
{
    if length_ok(message, bits) {
        return type_of_whole(air, message, bits);
    }
    Err(codec::refuse(3))
}

#[tactic(auto, unfolding(crate::specs::Walks::whole_walk, crate::specs::Walks::type_of))]
fn type_of_whole(air: Air, message: &[u8], bits: usize) -> Result<u8, Stop>
    ensures { result ≡ type_of (whole_walk air (bit_at message.now) bits) }
{
    let ((_, pdu), p) = header::read_header(air.ss, message, bits, 0)?;
    let q = walk::walk_body(air, pdu, message, bits, p)?;
    if q != bits {
        return Err(codec::refuse(13));
    }
    Ok(pdu)
}
