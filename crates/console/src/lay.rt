// A message laid as it is read, along its row: the value's bytes go into an area of their own. It only succeeds: whatever it does not know,
// and every refusal, it leaves to `reading`, whose order of refusals so stands in one place.
ghost use Rattle.std.specs.Prelude.{◌≡◌, ◌<◌, ◌≤◌, true, replicate, slice_set, IfSome};
ghost use Rattle.layouts.specs.Profiles.{air_from};
ghost use Rattle.layouts.proofs.PartLaws.{mark_at};
ghost use Rattle.layouts.proofs.RowReads.{Reads, RowLays, PartsLay, BehindLays};

use crate::values::BYTES;
use crate::{number, part, word};
use message::Slot;

// True: the value's bytes are in the area.
pub(crate) fn lay(profile: &[u8], buf: &[u8], bits: usize, area: &mut [u8; BYTES]) -> bool
    requires { area.old ≡ replicate 471 0 }
    ensures { result ≡ true → Reads (air_from profile.now) buf.now bits area.new }
{
    if bits < 11 || bits > 4096 || (bits + 7) / 8 > buf.len() {
        return false;
    }
    let head = u64::from(number::byte_at(buf, 0)) * 8 + u64::from(number::byte_at(buf, 1)) / 32;
    if head / 32 != u64::from(number::byte_at(profile, 0)) {
        return false;
    }
    let pdu = (head % 32) as u8;
    area[0] = pdu;
    let Some(next) = lay_row(profile, pdu, buf, bits, area) else {
        return false;
    };
    next == bits
}

// None: `reading` has to say what is refused, as in all that follows.
fn lay_row(
    profile: &[u8],
    pdu: u8,
    buf: &[u8],
    bits: usize,
    area: &mut [u8; BYTES],
) -> Option<usize>
    requires { (area.old ≡ slice_set (replicate 471 0) 0 pdu) × (bits ≤ 4096) }
    ensures { IfSome result (λ n. RowLays (air_from profile.now) buf.now pdu area.new n) }
{
    let row = message::row_of(pdu);
    if !row.carried {
        return None;
    }
    let next = lay_parts(profile, row.parts, row.count, buf, bits, area)?;
    if row.options == 0 {
        return Some(next);
    }
    if word::bit(buf, next) == 0 {
        return Some(next + 1);
    }
    lay_behind(
        profile,
        row.optional,
        row.options,
        buf,
        bits,
        next + 1,
        area,
    )
}

// A count above the row's places is refused, and not cut: so `for` over the count, and not over the places.
fn lay_parts(
    profile: &[u8],
    parts: [Slot; 6],
    count: u8,
    buf: &[u8],
    bits: usize,
    area: &mut [u8; BYTES],
) -> Option<usize>
    requires { bits ≤ 4096 }
    ensures { IfSome result
        (λ n. (n ≤ 4096) × PartsLay (air_from profile.now) buf.now count parts area.old area.new n) }
{
    let mut next: usize = 11;
    for i in 0..count as usize {
        if i >= 6 {
            return None;
        }
        next = part::lay_part(profile, parts[i].part, buf, next, area)?;
        if next > bits {
            return None;
        }
    }
    Some(next)
}

// The options after an O-bit of 1: each behind its P-bit, and one of them there.
fn lay_behind(
    profile: &[u8],
    optional: [Slot; 7],
    count: u8,
    buf: &[u8],
    bits: usize,
    at: usize,
    area: &mut [u8; BYTES],
) -> Option<usize>
    requires { (bits ≤ 4096) × (at ≤ 4097) }
    ensures { IfSome result (λ n. BehindLays (air_from profile.now) buf.now count optional at area.old area.new n) }
{
    let mut next = at;
    let mut some = false;
    for i in 0..count as usize {
        if i >= 7 {
            return None;
        }
        if next > bits {
            return None;
        }
        if word::bit(buf, next) == 0 {
            next += 1;
            continue;
        }
        next = part::lay_part(profile, optional[i].part, buf, next + 1, area)?;
        put_mark(area, i);
        some = true;
    }
    if some {
        return Some(next);
    }
    None
}

// The row's i-th option is there.
fn put_mark(area: &mut [u8; BYTES], i: usize)
    requires { i < 7 }
    ensures { area.new ≡ slice_set area.old (mark_at i) 1 }
{
    if i == 0 {
        area[121] = 1;
        return;
    }
    area[227 + i] = 1;
}
