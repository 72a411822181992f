// What an ACK has after its users: a mask of one bit for each identity, a result; of INTERROGATE ACK a state.
ghost use Rattle.std.specs.Prelude.{◌≡◌, ◌-◌, ◌/◌, ◌^◌, ◌≤◌};
ghost use Rattle.message.specs.Acks.{masked_c, result_c, state_c};
ghost use Rattle.writing.specs.Parts.{why_not_bits, if_accepted_bits};
ghost use Rattle.writing.specs.Wrote.{Wrote};

use crate::element;
use message::State;

pub(crate) fn write_masked(
    count: usize,
    masked: bool,
    mask: u64,
    out: &mut [u8],
    at: usize,
) -> usize
    requires { count ≤ 64 }
    ensures { Wrote out.old out.new at result ((masked_c count).bits (masked, mask)) }
{
    if masked {
        let p = element::bit(out, at, true);
        return element::run(out, p, count, first(mask, count));
    }
    element::bit(out, at, false)
}

// The first `count` of 64 bits.
fn first(mask: u64, count: usize) -> u64
    requires { count ≤ 64 }
    ensures { result ≡ mask / 2 ^ (64 - count) }
{
    if count == 0 { 0 } else { mask >> (64 - count) }
}

// A reason follows unless the result is 1.
pub(crate) fn write_result(res: u32, reason: u32, out: &mut [u8], at: usize) -> usize
    ensures { Wrote out.old out.new at result (result_c.bits (res, reason)) }
{
    let p = element::word(out, at, 1, res);
    if res == 1 {
        return p;
    }
    element::word(out, p, 7, reason)
}

pub(crate) fn write_state(s: State, out: &mut [u8], at: usize) -> usize
    ensures { Wrote out.old out.new at result (state_c.bits s) }
{
    let p1 = element::word(out, at, 1, s.result);
    let p2 = write_why_not(s.result, s.reason, out, p1);
    let p3 = write_if_accepted(s.result, 1, s.activation, out, p2);
    let p4 = write_if_accepted(s.result, 1, s.interception, out, p3);
    let p5 = write_if_accepted(s.result, 2, s.called, out, p4);
    write_if_accepted(s.result, 2, s.calling, out, p5)
}

fn write_why_not(res: u32, reason: u32, out: &mut [u8], at: usize) -> usize
    ensures { Wrote out.old out.new at result (why_not_bits res reason) }
{
    if res == 1 {
        return at;
    }
    element::word(out, at, 3, reason)
}

fn write_if_accepted(res: u32, width: usize, n: u32, out: &mut [u8], at: usize) -> usize
    requires { width ≤ 64 }
    ensures { Wrote out.old out.new at result (if_accepted_bits res width n) }
{
    if res == 1 {
        return element::word(out, at, width, n);
    }
    at
}
