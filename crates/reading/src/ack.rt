// What an ACK has after its users: a mask of one bit for each identity, a result; of INTERROGATE ACK a state. A count of at most 64 is asked of
// each that takes it: its caller cuts it to that, and a number of its own would be one more type for three functions.
#![tactic(auto, using(crate::proofs::ReadLaws::ack_laws), unfolding(message::specs::Acks::mask_c, message::specs::Acks::masked_c, message::specs::Acks::result_c, message::specs::Acks::why_not_c, message::specs::Acks::if_accepted_c, message::specs::Acks::state_c))]

ghost use Rattle.std.specs.Prelude.{◌≡◌, ◌*◌, ◌-◌, ◌<◌, ◌≤◌, ◌^◌};
ghost use Rattle.bits.specs.Fields.{bit_at};
ghost use Rattle.codec.specs.Taking.{outcome_of};
ghost use Rattle.message.specs.Acks.{mask_c, masked_c, result_c, why_not_c, if_accepted_c, state_c};

use crate::element;
use codec::Stop;
use message::State;

pub(crate) fn read_masked(
    count: usize,
    buf: &[u8],
    bits: usize,
    at: usize,
) -> Result<((bool, u64), usize), Stop>
    requires { count ≤ 64 }
    ensures { outcome_of result ≡ (masked_c count).read (bit_at buf.now) bits at }
{
    let (masked, p) = element::bit(message::MASK_PRESENT, buf, bits, at)?;
    if !masked {
        return Ok(((false, 0), p));
    }
    let (mask, q) = read_mask(count, buf, bits, p)?;
    Ok(((true, mask), q))
}

fn read_mask(count: usize, buf: &[u8], bits: usize, at: usize) -> Result<(u64, usize), Stop>
    requires { count ≤ 64 }
    ensures { outcome_of result ≡ (mask_c count).read (bit_at buf.now) bits at }
{
    let (v, p) = codec::take(message::MASK, buf, bits, at, count)?;
    Ok((aligned(v, count), p))
}

// The top `count` of 64 bits.
fn aligned(v: u64, count: usize) -> u64
    requires { (v < 2 ^ count) × (count ≤ 64) }
    ensures { result ≡ v * 2 ^ (64 - count) }
{
    if count == 0 {
        return 0;
    }
    v << (64 - count)
}

pub(crate) fn read_result(buf: &[u8], bits: usize, at: usize) -> Result<((u8, u8), usize), Stop>
    ensures { outcome_of result ≡ result_c.read (bit_at buf.now) bits at }
{
    let (result, p) = element::byte(message::RESULT, buf, bits, at, 1)?;
    if result == 1 {
        return Ok(((result, 0), p));
    }
    let (reason, q) = element::byte(message::REASON, buf, bits, p, 7)?;
    Ok(((result, reason), q))
}

pub(crate) fn read_state(buf: &[u8], bits: usize, at: usize) -> Result<(State, usize), Stop>
    ensures { outcome_of result ≡ state_c.read (bit_at buf.now) bits at }
{
    let (result, p1) = element::word(message::RESULT, buf, bits, at, 1)?;
    let (reason, p2) = read_why_not(result, buf, bits, p1)?;
    let (activation, p3) = read_if_accepted(result, message::ACTIVATION_TYPE, 1, buf, bits, p2)?;
    let (interception, p4) = read_if_accepted(
        result,
        message::INTERCEPTION_TYPE,
        1,
        buf,
        bits,
        p3,
    )?;
    let (called, p5) = read_if_accepted(result, message::BASIC_SERVICE, 2, buf, bits, p4)?;
    let (calling, p6) = read_if_accepted(result, message::BASIC_SERVICE, 2, buf, bits, p5)?;
    Ok((
        State {
            result,
            reason,
            activation,
            interception,
            called,
            calling,
        },
        p6,
    ))
}

fn read_why_not(res: u32, buf: &[u8], bits: usize, at: usize) -> Result<(u32, usize), Stop>
    ensures { outcome_of result ≡ (why_not_c res).read (bit_at buf.now) bits at }
{
    if res == 1 {
        return Ok((0, at));
    }
    element::word(message::REASON, buf, bits, at, 3)
}

fn read_if_accepted(
    res: u32,
    element: u8,
    width: usize,
    buf: &[u8],
    bits: usize,
    at: usize,
) -> Result<(u32, usize), Stop>
    requires { width ≤ 32 }
    ensures { outcome_of result ≡ (if_accepted_c res element width).read (bit_at buf.now) bits at }
{
    if res == 1 {
        return element::word(element, buf, bits, at, width);
    }
    Ok((0, at))
}
