// Areas laid as they are read, as a group's addresses are.
ghost use Rattle.std.specs.Prelude.{◌≡◌, ◌+◌, ◌*◌, ◌<◌, ◌≤◌, IfSome};
ghost use Rattle.std.proofs.lemmas.List.Edits.{sets};
ghost use Rattle.bits.specs.Fields.{bit_at};
ghost use Rattle.layouts.specs.Profiles.{air_from};
ghost use Rattle.layouts.proofs.PlaceLaws.{AreaPlaces, fours};
ghost use Rattle.layouts.proofs.RowReads.{PartLays};
ghost use Rattle.message.specs.declared.Part.TheVariants.{Areas};

use crate::values::BYTES;
use crate::{bytes, number, word};

pub(crate) fn lay_areas(
    profile: &[u8],
    buf: &[u8],
    at: usize,
    area: &mut [u8; BYTES],
) -> Option<usize>
    requires { at ≤ 5000 }
    ensures { IfSome result (λ n. PartLays (air_from profile.now) (bit_at buf.now) Areas at area.old area.new n) }
{
    let range = word::four(buf, at);
    let m = number::byte_at(profile, 6 + range as usize) as usize;
    number::put_byte(area, 455, range as u8);
    if m == 0 {
        return None;
    }
    if m < 16 {
        return Some(lay_places(buf, at + 4, m, area));
    }
    if m == 16 {
        return Some(lay_places(buf, at + 4, 0, area));
    }
    if m > 17 {
        return None;
    }
    let next = lay_places(buf, at + 4, 2, area);
    if area[456] <= area[457] {
        return Some(next);
    }
    None
}

// So many areas in fifteen places. Not one with group's: an address is no byte, and is kept and put back.
fn lay_places(buf: &[u8], at: usize, count: usize, area: &mut [u8; BYTES]) -> usize
    requires { (count ≤ 15) × (at ≤ 6000) }
    ensures { AreaPlaces (bit_at buf.now) count at area.old area.new result }
{
    lay_fours(buf, at, count, area);
    bytes::zero_run(area, 456 + count, 471);
    at + 4 * count
}

fn lay_fours(buf: &[u8], at: usize, count: usize, area: &mut [u8; BYTES])
    requires { (count ≤ 15) × (at ≤ 6000) }
    ensures { area.new ≡ sets area.old 456 (fours (bit_at buf.now) at count) }
{
    for i in 0..count {
        area[456 + i] = word::four(buf, at + 4 * i) as u8;
    }
}
