// One address.
#![tactic(auto, using(crate::proofs::ReadLaws::kind_read), unfolding(message::specs::Addresses::address_c, message::specs::Addresses::extension_c, crate::specs::Parts::no_kind, codec::specs::Codec::both))]

ghost use Rattle.std.specs.Prelude.{◌≡◌};
ghost use Rattle.bits.specs.Fields.{bit_at};
ghost use Rattle.codec.specs.Taking.{outcome_of};
ghost use Rattle.message.specs.Addresses.{kind_c, extension_c, address_c};
ghost use Rattle.reading.specs.Parts.{no_kind};

use crate::element;
use codec::Stop;
use message::Address;

// `external` says whether kind 3 may be an external number.
pub(crate) fn read_address(
    external: bool,
    buf: &[u8],
    bits: usize,
    at: usize,
) -> Result<(Address, usize), Stop>
    ensures { outcome_of result ≡ (address_c external).read (bit_at buf.now) bits at }
{
    let (kind, p) = read_kind(external, buf, bits, at)?;
    let (ssi, q) = element::word(message::SSI, buf, bits, p, 24)?;
    let (extension, e) = read_extension(kind, buf, bits, q)?;
    Ok((
        Address {
            kind,
            ssi,
            extension,
        },
        e,
    ))
}

pub(crate) fn read_kind(
    external: bool,
    buf: &[u8],
    bits: usize,
    at: usize,
) -> Result<(u8, usize), Stop>
    ensures { outcome_of result ≡ (kind_c external).read (bit_at buf.now) bits at }
{
    let (kind, p) = element::byte(message::KIND, buf, bits, at, 2)?;
    if kind == 1 || kind == 2 {
        return Ok((kind, p));
    }
    Err(codec::refuse(no_kind(external, kind)))
}

// The number that any other kind is refused with.
fn no_kind(external: bool, kind: u8) -> u8
    ensures { result ≡ no_kind external kind }
{
    if external && kind == 3 {
        return 27;
    }
    10
}

fn read_extension(kind: u8, buf: &[u8], bits: usize, at: usize) -> Result<(u32, usize), Stop>
    ensures { outcome_of result ≡ (extension_c kind).read (bit_at buf.now) bits at }
{
    if kind == 1 {
        return Ok((0, at));
    }
    element::word(message::EXTENSION, buf, bits, at, 24)
}
