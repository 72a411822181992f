// One part of a row, laid as it is read: the position after it, or None where `reading` has to say what is refused. A position's bound (5,000,
// 6,000 and on) asks no more than that what is added to it does not wrap; profile, bytes, position and area are four, as each contract states them.
ghost use Rattle.std.specs.Prelude.{◌≡◌, ◌+◌, ◌-◌, ◌*◌, ◌^◌, ◌<◌, ◌≤◌, ◌∷◌, slice_set, IfSome};
ghost use Rattle.std.proofs.lemmas.List.Edits.{sets};
ghost use Rattle.bits.specs.Fields.{bit_at};
ghost use Rattle.layouts.specs.Bytes.{number_bytes};
ghost use Rattle.layouts.specs.Profiles.{air_from};
ghost use Rattle.layouts.proofs.PartLaws.{GroupPart};
ghost use Rattle.layouts.proofs.PlaceLaws.{Spans};
ghost use Rattle.layouts.proofs.RowReads.{PartLays};
ghost use Rattle.message.specs.declared.Part.TheVariants.{Number, User, Masked, Result, Interrogation};

use crate::values::BYTES;
use crate::{area, group, number, word};
use message::Part;

pub(crate) fn lay_part(
    profile: &[u8],
    part: Part,
    buf: &[u8],
    at: usize,
    area: &mut [u8; BYTES],
) -> Option<usize>
    requires { at ≤ 5000 }
    ensures { IfSome result (λ n. PartLays (air_from profile.now) (bit_at buf.now) part at area.old area.new n) }
{
    if let Some(place) = group_at(part) {
        return group::lay_group(profile, buf, at, area, place);
    }
    match part {
        Part::Nothing => Some(at),
        Part::Number(place) => lay_number(profile, place, buf, at, area),
        Part::Users => None,
        Part::User(place) => lay_user(profile, place, buf, at, area),
        Part::Masked => lay_mask(profile, buf, at, area),
        Part::Result => Some(lay_result(profile, buf, at, area)),
        Part::Dispatchers => None,
        Part::Dispatcher => group::lay_addresses(buf, at, 1, area, 123),
        Part::Interrogation => Some(lay_state(profile, buf, at, area)),
        Part::Sources => None,
        Part::Destinations => None,
        Part::Areas => area::lay_areas(profile, buf, at, area),
    }
}

// Where the bytes of a group begin, if the part is one. One call lays all four: the compiler then builds it in.
fn group_at(part: Part) -> Option<usize>
    ensures { IfSome result (λ place. GroupPart part place) }
{
    match part {
        Part::Users => Some(1),
        Part::Dispatchers => Some(122),
        Part::Sources => Some(243),
        Part::Destinations => Some(349),
        _ => None,
    }
}

// The numbers that stand in rows by themselves.
fn lay_number(
    profile: &[u8],
    place: u8,
    buf: &[u8],
    at: usize,
    area: &mut [u8; BYTES],
) -> Option<usize>
    requires { at ≤ 5000 }
    ensures { IfSome result (λ n. PartLays (air_from profile.now) (bit_at buf.now) (Number place) at area.old area.new n) }
{
    match place {
        message::IDENTIFIER_AT => {
            number::put_run(area, 119, 2, word::take(buf, at, 14));
            Some(at + 14)
        }
        message::CAUSE_AT => {
            area[118] = word::take(buf, at, 5) as u8;
            Some(at + 5)
        }
        message::MNI_AT => {
            number::put_run(area, 234, 3, word::take(buf, at, 24));
            Some(at + 24)
        }
        message::CALLING_AREA_AT => {
            area[237] = word::take(buf, at, 4) as u8;
            Some(at + 4)
        }
        message::CALLED_AREA_AT => {
            area[238] = word::take(buf, at, 4) as u8;
            Some(at + 4)
        }
        message::CALLING_SERVICE_AT => {
            area[239] = word::take(buf, at, 2) as u8;
            Some(at + 2)
        }
        message::CALLED_SERVICE_AT => {
            area[240] = word::take(buf, at, 2) as u8;
            Some(at + 2)
        }
        _ => None,
    }
}

fn lay_user(
    profile: &[u8],
    place: u8,
    buf: &[u8],
    at: usize,
    area: &mut [u8; BYTES],
) -> Option<usize>
    requires { at ≤ 5000 }
    ensures { IfSome result (λ n. PartLays (air_from profile.now) (bit_at buf.now) (User place) at area.old area.new n) }
{
    if place > 14 {
        return None;
    }
    group::lay_addresses(buf, at, 1, area, 2 + 7 * place as usize)
}

fn lay_mask(profile: &[u8], buf: &[u8], at: usize, area: &mut [u8; BYTES]) -> Option<usize>
    requires { at ≤ 5000 }
    ensures { IfSome result (λ n. PartLays (air_from profile.now) (bit_at buf.now) Masked at area.old area.new n) }
{
    if word::bit(buf, at) == 0 {
        put_mask(area, 0, 0);
        return Some(at + 1);
    }
    let k = span_in(profile, area)?;
    put_mask(area, 1, aligned(bits::field(buf, at + 1, k), k));
    Some(at + 1 + k)
}

fn put_mask(area: &mut [u8; BYTES], present: u8, mask: u64)
    ensures { area.new ≡ sets area.old 107 (present ∷ number_bytes 8 mask) }
{
    area[107] = present;
    number::put_run(area, 108, 8, mask);
}

// In the top `count` of 64 bits. (reading has the same for itself alone.)
fn aligned(v: u64, count: usize) -> u64
    requires { (v < 2 ^ count) × (count ≤ 64) }
    ensures { result ≡ v * 2 ^ (64 - count) }
{
    if count == 0 {
        return 0;
    }
    v << (64 - count)
}

// How many identities the users are, at most 64; none where their range says nothing of it.
fn span_in(profile: &[u8], area: &[u8; BYTES]) -> Option<usize>
    ensures { IfSome result (λ k. (k ≤ 64) × Spans profile.now area.now k) }
{
    let range = u64::from(area[1]);
    if range > 15 {
        return None;
    }
    let m = number::byte_at(profile, 6 + range as usize) as usize;
    if m < 16 {
        return Some(m);
    }
    if m == 16 {
        return Some(0);
    }
    if m > 17 {
        return None;
    }
    let first = number::triple(area, 3);
    let last = number::triple(area, 10);
    if last < first {
        return Some(1);
    }
    if last - first > 63 {
        return Some(64);
    }
    Some((last - first + 1) as usize)
}

fn lay_result(profile: &[u8], buf: &[u8], at: usize, area: &mut [u8; BYTES]) -> usize
    requires { at ≤ 5000 }
    ensures { PartLays (air_from profile.now) (bit_at buf.now) Result at area.old area.new result }
{
    let result = word::bit(buf, at);
    if result == 1 {
        area[116] = 1;
        area[117] = 0;
        return at + 1;
    }
    area[116] = 0;
    area[117] = word::take(buf, at + 1, 7) as u8;
    at + 8
}

fn lay_state(profile: &[u8], buf: &[u8], at: usize, area: &mut [u8; BYTES]) -> usize
    requires { at ≤ 5000 }
    ensures { PartLays (air_from profile.now) (bit_at buf.now) Interrogation at area.old area.new result }
{
    let w = word::take(buf, at, 7);
    if w < 64 {
        put_state(area, 0, (w / 8) as u8, 0, 0, 0, 0);
        return at + 4;
    }
    put_state(
        area,
        1,
        0,
        (w / 32 % 2) as u8,
        (w / 16 % 2) as u8,
        (w / 4 % 4) as u8,
        (w % 4) as u8,
    );
    at + 7
}

// Bytes, in their own order: `State` of message has numbers of 32 bits.
fn put_state(
    area: &mut [u8; BYTES],
    res: u8,
    reason: u8,
    activation: u8,
    interception: u8,
    called: u8,
    calling: u8,
)
    ensures { area.new
        ≡ slice_set (slice_set (slice_set (slice_set (slice_set (slice_set area.old 116 res) 117 reason) 241 activation) 242 interception) 240 called) 239 calling }
{
    put_pair(area, 116, res, reason);
    put_pair(area, 241, activation, interception);
    number::put_byte(area, 240, called);
    number::put_byte(area, 239, calling);
}

fn put_pair(area: &mut [u8; BYTES], at: usize, x: u8, y: u8)
    requires { at + 2 ≤ 471 }
    ensures { area.new ≡ slice_set (slice_set area.old at x) (at + 1) y }
{
    area[at] = x;
    area[at + 1] = y;
}
