// Formats as codecs (specs/Codec), and the one function that reads an element of a message or stops.
//
// What is proved of codecs (proofs/): each combinator keeps `Good`, and of every good codec what is written reads back, what reads
// as a value is valid and has the bits that stood there, and bits past the length are never looked at.
#![tactic(auto)]

ghost use Rattle.std.specs.Prelude.{◌≡◌};
ghost use Rattle.codec.specs.Stops.{short, refusal, no_stop};
ghost use Rattle.codec.specs.Taking.{outcome_of, take_of};

// A refusal on its way. It is made by `short_at`, `refuse` and `no_stop` alone, and handed on whole. With a 4 `element` is the element that
// did not fit, and it begins at position `at`; with any other number both are 0, and no element has the number 0. A struct and no enum: the
// theorems and docs/REFUSALS.md speak of the published number of each refusal (`refusal`), and of `short` with its element and position.
#[derive(Clone, Copy)]
pub struct Stop {
    pub number: u8,
    pub element: u8,
    pub at: usize,
}

// The element of `width` bits at position `at` of a message of `bits` bits, with the next position; short where it reaches past them or is
// over 64. Bytes, bit length and position are three, as a codec's `read f n at` takes them.
#[tactic(auto, using(crate::proofs::TakeLaws::take_wide, crate::proofs::TakeLaws::take_past, crate::proofs::TakeLaws::take_there))]
pub fn take(
    element: u8,
    buf: &[u8],
    bits: usize,
    at: usize,
    width: usize,
) -> Result<(u64, usize), Stop>
    ensures { outcome_of result ≡ take_of element buf.now bits at width }
{
    if width > 64 || at > bits || width > bits - at {
        return Err(short_at(element, at));
    }
    Ok((bits::field(buf, at, width), at + width))
}

// The element that begins at a position reaches past the bit length.
#[tactic(auto, unfolding(crate::specs::Stops::short))]
pub fn short_at(element: u8, at: usize) -> Stop
    ensures { result ≡ short element at }
{
    Stop {
        number: 4,
        element,
        at,
    }
}

// What was read is refused with this number.
#[tactic(auto, unfolding(crate::specs::Stops::refusal))]
pub fn refuse(number: u8) -> Stop
    ensures { result ≡ refusal number }
{
    Stop {
        number,
        element: 0,
        at: 0,
    }
}

// What stands beside an answer that is no refusal.
#[tactic(auto, unfolding(crate::specs::Stops::no_stop, crate::specs::Stops::refusal))]
pub fn no_stop() -> Stop
    ensures { result ≡ no_stop }
{
    refuse(0)
}
