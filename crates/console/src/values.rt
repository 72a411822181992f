// A value from its bytes, and into them.
ghost use Rattle.std.specs.Prelude.{◌≡◌, ◌-◌, ◌≤◌, length, take, drop, replicate, ◌≢◌, slice_index};
ghost use Rattle.std.proofs.lemmas.List.Edits.{sets};
ghost use Rattle.message.specs.Values.{no_lists};
ghost use Rattle.layouts.specs.Bytes.{rows_bytes};
ghost use Rattle.layouts.specs.Values.{address_bytes, address_from, group_bytes, group_from, byte_bytes, areas_bytes, areas_from, first_bytes, more_bytes, type_bytes, lists_bytes, lists_from, value_bytes, value_from, is_value};

use crate::{bytes, number};
use message::{Address, Areas, Group, Lists, Value};

// So many bytes has a value.
pub(crate) const BYTES: usize = 471;

// ---- from bytes

#[tactic(auto, unfolding(layouts::specs::Values::is_value, codec::specs::Codec::both))]
pub(crate) fn is_value(l: &[u8]) -> bool
    ensures { result ≡ is_value l.now }
{
    l.len() == BYTES
        && number::byte_at(l, 107) <= 1
        && number::byte_at(l, 121) <= 1
        && number::are_up_to(l, 228, 6, 1)
}

pub(crate) fn value_from(l: &[u8]) -> Value
    ensures { result ≡ value_from l.now }
{
    Value {
        pdu: number::byte_at(l, 0),
        numbers: [
            number::two_at(l, 119),
            u32::from(number::byte_at(l, 118)), // the cause
            u32::from(number::byte_at(l, 116)), // the result
            u32::from(number::byte_at(l, 117)), // the reason
            number::three_at(l, 234),
            u32::from(number::byte_at(l, 237)), // the calling's area
            u32::from(number::byte_at(l, 238)), // the called's area
            u32::from(number::byte_at(l, 239)), // the calling's basic service
            u32::from(number::byte_at(l, 240)), // the called's basic service
            u32::from(number::byte_at(l, 241)), // the activation type
            u32::from(number::byte_at(l, 242)), // the interception type
            0,
        ],
        users: group_at(l, 1),
        masked: number::byte_at(l, 107) == 1,
        mask: number::number_at(l, 108, 8),
        given: [
            number::byte_at(l, 121) == 1,
            number::byte_at(l, 228) == 1,
            number::byte_at(l, 229) == 1,
            number::byte_at(l, 230) == 1,
            number::byte_at(l, 231) == 1,
            number::byte_at(l, 232) == 1,
            number::byte_at(l, 233) == 1,
        ],
        dispatchers: group_at(l, 122),
        lists: lists_from(l),
    }
}

fn lists_from(l: &[u8]) -> Lists
    ensures { result ≡ lists_from l.now }
{
    Lists {
        sources: group_at(l, 243),
        destinations: group_at(l, 349),
        areas: areas_at(l, 455),
    }
}

fn areas_at(l: &[u8], at: usize) -> Areas
    requires { at ≤ 1000 }
    ensures { result ≡ areas_from (drop at l.now) }
{
    let mut list = [0u8; 15];
    for i in 0..15 {
        list[i] = number::byte_at(l, at + 1 + i);
    }
    Areas {
        range: number::byte_at(l, at),
        areas: list,
    }
}

fn group_at(l: &[u8], at: usize) -> Group
    requires { at ≤ 1000 }
    ensures { result ≡ group_from (drop at l.now) }
{
    let mut list = [message::NOBODY; 15];
    for i in 0..15 {
        list[i] = address_at(l, at + 1 + 7 * i);
    }
    Group {
        range: number::byte_at(l, at),
        addresses: list,
    }
}

fn address_at(l: &[u8], at: usize) -> Address
    requires { at ≤ 4000 }
    ensures { result ≡ address_from (drop at l.now) }
{
    Address {
        kind: number::byte_at(l, at),
        ssi: number::three_at(l, at + 1),
        extension: number::three_at(l, at + 4),
    }
}

// ---- into bytes

// No message but INTERROGATE ACK has lists, so that no other pays for them.
pub(crate) fn put_value(out: &mut [u8], v: Value)
    requires { (471 ≤ length out.old) × ((v.pdu ≢ 9) → v.lists ≡ no_lists) }
    ensures { out.new ≡ sets out.old 0 (value_bytes v) }
{
    number::put_byte(out, 0, v.pdu);
    put_group(out, 1, v.users);
    number::put_flag(out, 107, v.masked);
    number::put_number(out, 108, 8, v.mask);
    put_first(out, v.numbers, v.given);
    put_group(out, 122, v.dispatchers);
    put_more(out, v.numbers, v.given);
    put_types(out, v.numbers);
    if v.pdu == 9 {
        put_lists(out, v.lists);
        return;
    }
    bytes::zero_run(out, 243, BYTES);
}

// An area of a value's bytes over the first bytes of another. Of any message but INTERROGATE ACK the lists are zeros, and so need no copy.
pub(crate) fn put_area(out: &mut [u8], area: &[u8; BYTES])
    requires { (471 ≤ length out.old) × ((slice_index area.now 0 ≢ 9) → drop 243 area.now ≡ replicate 228 0) }
    ensures { out.new ≡ sets out.old 0 area.now }
{
    if number::byte_at(area, 0) == 9 {
        bytes::copy_bytes(out, area, BYTES);
        return;
    }
    bytes::copy_bytes(out, area, 243);
    bytes::zero_run(out, 243, BYTES);
}

// Result, reason, cause, identifier, and the first option of the row.
fn put_first(out: &mut [u8], numbers: [u32; 12], given: [bool; 7])
    ensures { out.new ≡ sets out.old 116 (first_bytes numbers given) }
{
    number::put_low(out, 116, numbers[message::RESULT_AT as usize]);
    number::put_low(out, 117, numbers[message::REASON_AT as usize]);
    number::put_low(out, 118, numbers[message::CAUSE_AT as usize]);
    number::put_number(out, 119, 2, numbers[message::IDENTIFIER_AT as usize] as u64);
    number::put_flag(out, 121, given[0]);
}

// The row's further options, and REQUEST's network, areas and basic services.
fn put_more(out: &mut [u8], numbers: [u32; 12], given: [bool; 7])
    ensures { out.new ≡ sets out.old 228 (more_bytes numbers given) }
{
    let mni = numbers[message::MNI_AT as usize] as u64;
    number::put_flag(out, 228, given[1]);
    number::put_flag(out, 229, given[2]);
    number::put_flag(out, 230, given[3]);
    number::put_flag(out, 231, given[4]);
    number::put_flag(out, 232, given[5]);
    number::put_flag(out, 233, given[6]);
    number::put_number(out, 234, 3, mni);
    number::put_low(out, 237, numbers[message::CALLING_AREA_AT as usize]);
    number::put_low(out, 238, numbers[message::CALLED_AREA_AT as usize]);
    number::put_low(out, 239, numbers[message::CALLING_SERVICE_AT as usize]);
    number::put_low(out, 240, numbers[message::CALLED_SERVICE_AT as usize]);
}

// INTERROGATE ACK's activation and interception type.
fn put_types(out: &mut [u8], numbers: [u32; 12])
    ensures { out.new ≡ sets out.old 241 (type_bytes numbers) }
{
    number::put_low(out, 241, numbers[message::ACTIVATION_TYPE_AT as usize]);
    number::put_low(out, 242, numbers[message::INTERCEPTION_TYPE_AT as usize]);
}

fn put_lists(out: &mut [u8], lists: Lists)
    ensures { out.new ≡ sets out.old 243 (lists_bytes lists) }
{
    put_group(out, 243, lists.sources);
    put_group(out, 349, lists.destinations);
    put_areas(out, 455, lists.areas);
}

fn put_areas(out: &mut [u8], at: usize, areas: Areas)
    requires { at ≤ 1000 }
    ensures { out.new ≡ sets out.old at (areas_bytes areas) }
{
    number::put_byte(out, at, areas.range);
    put_bytes(out, at + 1, areas.areas);
}

fn put_bytes(out: &mut [u8], at: usize, list: [u8; 15])
    requires { at ≤ 2000 }
    ensures { out.new ≡ sets out.old at (rows_bytes byte_bytes list) }
{
    for i in 0..15 {
        number::put_byte(out, at + i, list[i]);
    }
}

// A group always has fifteen places: the caller knows by it where the next element goes.
fn put_group(out: &mut [u8], at: usize, group: Group)
    requires { at ≤ 1000 }
    ensures { (out.new ≡ sets out.old at (group_bytes group)) × (length group.addresses ≡ 15) }
{
    number::put_byte(out, at, group.range);
    put_addresses(out, at + 1, group.addresses);
}

fn put_addresses(out: &mut [u8], at: usize, list: [Address; 15])
    requires { at ≤ 2000 }
    ensures { (out.new ≡ sets out.old at (rows_bytes address_bytes list)) × (length list ≡ 15) }
{
    for i in 0..15 {
        put_address(out, at + 7 * i, list[i]);
    }
}

fn put_address(out: &mut [u8], at: usize, a: Address)
    requires { at ≤ 4000 }
    ensures { out.new ≡ sets out.old at (address_bytes a) }
{
    number::put_byte(out, at, a.kind);
    number::put_number(out, at + 1, 3, a.ssi as u64);
    number::put_number(out, at + 4, 3, a.extension as u64);
}
