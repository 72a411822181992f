// One address, and the place that has none.
ghost use Rattle.std.specs.Prelude.{◌≡◌, false};
ghost use Rattle.message.specs.Addresses.{is_nobody, kind_c, extension_c, address_c};

use message::{Address, NOBODY};

#[tactic(auto, unfolding(message::specs::Addresses::address_c, codec::specs::Codec::number, codec::specs::Codec::both))]
pub(crate) fn address_ok(a: Address) -> bool
    ensures { result ≡ (address_c false).ok a }
{
    kind_ok(a.kind) && a.ssi < 0x100_0000 && extension_ok(a.kind, a.extension)
}

// Kinds 0 and 3 would be refused with 10.
fn kind_ok(kind: u8) -> bool
    ensures { result ≡ (kind_c false).ok kind }
{
    kind == 1 || kind == 2
}

// With kind 1 the extension is not on the air, and zero.
#[tactic(auto, unfolding(message::specs::Addresses::extension_c, codec::specs::Codec::number))]
fn extension_ok(kind: u8, extension: u32) -> bool
    ensures { result ≡ (extension_c kind).ok extension }
{
    if kind == 1 {
        extension == 0
    } else {
        extension < 0x100_0000
    }
}

// The address is zero throughout.
#[tactic(auto, unfolding(message::specs::Addresses::is_nobody, codec::specs::Codec::both))]
pub(crate) fn is_nobody(a: Address) -> bool
    ensures { result ≡ is_nobody a }
{
    a == NOBODY
}
