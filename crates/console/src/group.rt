// A group laid as it is read: the range, its addresses, zeros in the places beyond. None where `reading` has to say what is refused.
ghost use Rattle.std.specs.Prelude.{◌≡◌, ◌+◌, ◌-◌, ◌*◌, ◌<◌, ◌≤◌, length, drop, IfSome};
ghost use Rattle.std.proofs.lemmas.List.Edits.{sets};
ghost use Rattle.bits.specs.Fields.{bit_at};
ghost use Rattle.message.specs.Groups.{range_ok};
ghost use Rattle.layouts.specs.Profiles.{air_from};
ghost use Rattle.layouts.specs.Values.{address_from};
ghost use Rattle.layouts.proofs.PartLaws.{Addresses, AnyGroup};
ghost use Rattle.layouts.proofs.RunLaws.{Stored};
ghost use Rattle.layouts.proofs.PlaceLaws.{Places};

use crate::values::BYTES;
use crate::{bytes, number, word};

// Users alone, at byte 1, may not be "none". By the meaning's byte in a row of ifs, here, in `lay_areas` and in `span_in`: must-fail/programs.edit
// and programs_2.edit name `m < 16` and `m == 0`.
pub(crate) fn lay_group(
    profile: &[u8],
    buf: &[u8],
    at: usize,
    area: &mut [u8; BYTES],
    place: usize,
) -> Option<usize>
    requires { (place + 106 < 471) × (at ≤ 5000) }
    ensures { IfSome result (λ n. AnyGroup (air_from profile.now) buf.now at area.old area.new place n) }
{
    let range = word::four(buf, at);
    let m = number::byte_at(profile, 6 + range as usize) as usize;
    number::put_byte(area, place, range as u8);
    if m == 0 {
        return None;
    }
    if m < 16 {
        return lay_places(buf, at + 4, m, area, place + 1);
    }
    if m == 16 {
        if place == 1 {
            return None;
        }
        return lay_places(buf, at + 4, 0, area, place + 1);
    }
    if m > 17 {
        return None;
    }
    // handed on as it is: `?` here takes 15 instructions more (521 for 506 at worked case 8)
    let next = lay_places(buf, at + 4, 2, area, place + 1);
    if ends_ok(area, place + 1) {
        return next;
    }
    None
}

// So many addresses in fifteen places.
fn lay_places(
    buf: &[u8],
    at: usize,
    count: usize,
    area: &mut [u8; BYTES],
    p: usize,
) -> Option<usize>
    requires { (p + 105 < 471) × ((count ≤ 15) × (at ≤ 6000)) }
    ensures { IfSome result (λ n. Places (bit_at buf.now) count at area.old area.new p n) }
{
    if count == 0 {
        bytes::zero_run(area, p, p + 105);
        return Some(at);
    }
    let next = lay_addresses(buf, at, count, area, p)?;
    bytes::zero_run(area, p + 7 * count, p + 105);
    Some(next)
}

// Each goes out as eight bytes: the last is overwritten by the next address, or put back. The loop goes by the byte, and not by `for`:
// the byte is what says which address is the last, after which no more is looked ahead.
pub(crate) fn lay_addresses(
    buf: &[u8],
    at: usize,
    count: usize,
    area: &mut [u8; BYTES],
    place: usize,
) -> Option<usize>
    requires { (place + 7 * count < 471) × (at ≤ 6000) }
    ensures { IfSome result (λ n. Addresses (bit_at buf.now) count at area.old area.new place n) }
{
    if buf.len() < 8 {
        return lay_alone(buf, at, count, area, place);
    }
    let end = place + 7 * count;
    let keep = area[end];
    let mut next = at;
    let mut p = place;
    let mut held = word::window(buf, at) * 2;
    while p < end {
        next += lay_kind(area, p, held)?;
        p += 7;
        if p >= end {
            area[end] = keep;
            return Some(next);
        }
        held = word::ahead(buf, next);
    }
    None
}

// In fewer than eight bytes there is no room for two.
fn lay_alone(
    buf: &[u8],
    at: usize,
    count: usize,
    area: &mut [u8; BYTES],
    place: usize,
) -> Option<usize>
    requires { (place + 7 * count < 471) × (at ≤ 6000) }
    ensures { IfSome result (λ n. Addresses (bit_at buf.now) count at area.old area.new place n) }
{
    if count == 1 {
        let end = place + 7;
        let keep = area[end];
        let step = lay_kind(area, place, word::window(buf, at) * 2)?;
        area[end] = keep;
        return Some(at + step);
    }
    None
}

// One address: how many bits it has. Its 50 bits are held, above one byte more.
fn lay_kind(area: &mut [u8; BYTES], p: usize, held: u64) -> Option<usize>
    requires { p + 8 ≤ 471 }
    ensures { IfSome result (λ n. Stored area.old area.new p held n) }
{
    number::put_run(area, p, 8, held);
    let kind = held >> 56;
    if kind == 2 {
        return Some(50);
    }
    if kind == 1 {
        number::put_run(area, p + 4, 4, 0);
        return Some(26);
    }
    None
}

// One kind, one extension, first not after last, at most 64 identities: a law for each return, which one `&&` would have behind its joins.
fn ends_ok(l: &[u8], p: usize) -> bool
    requires { p + 14 ≤ length l.now }
    ensures { result ≡ range_ok (address_from (drop p l.now)) (address_from (drop (p + 7) l.now)) }
{
    if l[p] != l[p + 7] {
        return false;
    }
    if number::triple(l, p + 4) != number::triple(l, p + 11) {
        return false;
    }
    let first = number::triple(l, p + 1);
    let last = number::triple(l, p + 8);
    if last < first {
        return false;
    }
    if last - first > 63 {
        return false;
    }
    true
}
