// One address.
ghost use Rattle.std.specs.Prelude.{false};
ghost use Rattle.message.specs.Addresses.{extension_c, address_c};
ghost use Rattle.writing.specs.Wrote.{Wrote};

use crate::element;
use message::Address;

pub(crate) fn write_address(a: Address, out: &mut [u8], at: usize) -> usize
    ensures { Wrote out.old out.new at result ((address_c false).bits a) }
{
    let p = element::byte(out, at, 2, a.kind);
    let q = element::word(out, p, 24, a.ssi);
    write_extension(a.kind, a.extension, out, q)
}

// With kind 1 there is none.
fn write_extension(kind: u8, extension: u32, out: &mut [u8], at: usize) -> usize
    ensures { Wrote out.old out.new at result ((extension_c kind).bits extension) }
{
    if kind == 1 {
        return at;
    }
    element::word(out, at, 24, extension)
}
