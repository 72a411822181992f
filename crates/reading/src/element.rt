// One element in a number of its own width. A width over that of the answer never fits, so that each takes every input.
#![tactic(auto, using(crate::proofs::ReadLaws::element_laws), unfolding(codec::specs::Options::flag))]

ghost use Rattle.std.specs.Prelude.{◌≡◌};
ghost use Rattle.bits.specs.Fields.{bit_at};
ghost use Rattle.codec.specs.Options.{flag};
ghost use Rattle.codec.specs.Taking.{outcome_of};
ghost use Rattle.reading.specs.Answers.{up_to};

use codec::Stop;

pub(crate) fn byte(
    element: u8,
    buf: &[u8],
    bits: usize,
    at: usize,
    width: usize,
) -> Result<(u8, usize), Stop>
    ensures { outcome_of result ≡ up_to 8 element buf.now bits at width }
{
    // no `take`, whose answer goes by memory: most of what a message is asked for is a few bits
    if width > 8 || at > bits || width > bits - at {
        return Err(codec::short_at(element, at));
    }
    Ok((bits::field(buf, at, width) as u8, at + width))
}

pub(crate) fn word(
    element: u8,
    buf: &[u8],
    bits: usize,
    at: usize,
    width: usize,
) -> Result<(u32, usize), Stop>
    ensures { outcome_of result ≡ up_to 32 element buf.now bits at width }
{
    if width > 32 {
        return Err(codec::short_at(element, at));
    }
    let (v, p) = codec::take(element, buf, bits, at, width)?;
    Ok((v as u32, p))
}

pub(crate) fn bit(element: u8, buf: &[u8], bits: usize, at: usize) -> Result<(bool, usize), Stop>
    ensures { outcome_of result ≡ (flag element).read (bit_at buf.now) bits at }
{
    let (v, p) = byte(element, buf, bits, at, 1)?;
    Ok((v == 1, p))
}
