// The first 11 bits: SS type and PDU type, and then 5, 6, 7.
ghost use Rattle.std.specs.Prelude.{◌≡◌};
ghost use Rattle.bits.specs.Fields.{bit_at};
ghost use Rattle.codec.specs.Taking.{outcome_of};
ghost use Rattle.message.specs.Messages.{is_known, header_c};
ghost use Rattle.reading.specs.Parts.{judged_of};

use codec::Stop;

#[tactic(auto, using(crate::proofs::ReadLaws::header_laws))]
pub(crate) fn read_header(
    ss: u8,
    buf: &[u8],
    bits: usize,
    at: usize,
) -> Result<((u8, u8), usize), Stop>
    ensures { outcome_of result ≡ (header_c ss).read (bit_at buf.now) bits at }
{
    if at > bits || bits - at < 6 {
        return Err(codec::short_at(message::SS_TYPE, at));
    }
    if bits - at < 11 {
        return Err(codec::short_at(message::PDU_TYPE, at + 6));
    }
    let head = bits::field(buf, at, 11);
    judged(ss, (head / 32) as u8, (head % 32) as u8, at + 11)
}

// What the two numbers are refused with, if anything.
#[tactic(auto, unfolding(crate::specs::Parts::judged_of))]
fn judged(ss: u8, x: u8, pdu: u8, next: usize) -> Result<((u8, u8), usize), Stop>
    ensures { outcome_of result ≡ judged_of ss x pdu next }
{
    if x != ss {
        return Err(codec::refuse(5));
    }
    if !is_known(pdu) {
        return Err(codec::refuse(6));
    }
    if !message::is_carried(pdu) {
        return Err(codec::refuse(7));
    }
    Ok(((x, pdu), next))
}

// These are CAD PDU types.
#[tactic(auto, unfolding(message::specs::Messages::is_known, codec::specs::Codec::both))]
fn is_known(pdu: u8) -> bool
    ensures { result ≡ is_known pdu }
{
    (2..=18).contains(&pdu)
}
