// Along a message without its value, for those who ask only what it is: where each thing ends, or the refusal that reading gives. Of what was
// passed a walk answers with the position alone, or first with how many identities the users so far are.
//
// Each function equals a walk of specs/Walks, and these are what reading is where its value is forgotten (proofs/WalkLaws).
#![tactic(auto, using(crate::proofs::WalkLaws::walk_laws), unfolding(crate::specs::Walks::address_walk, crate::specs::Walks::ends_walk, crate::specs::Walks::list_walk, crate::specs::Walks::group_walk, crate::specs::Walks::part_walk, crate::specs::Walks::behind_walk, crate::specs::Walks::body_walk))]

ghost use Rattle.std.specs.Prelude.{◌≡◌, false};
ghost use Rattle.bits.specs.Fields.{bit_at};
ghost use Rattle.codec.specs.Taking.{outcome_of};
ghost use Rattle.reading.specs.Walks.{step_of, pass_of, address_walk, addresses_walk, ends_walk, list_walk, group_walk, part_walk, parts_walk, each_walk, behind_walk, options_walk, body_walk};
ghost use Rattle.message.specs.declared.Part.TheVariants.{Masked, Result, Interrogation, Areas};

use crate::{ack, address, area, element, group};
use codec::Stop;
use message::{Part, Slot};
use profile::{Air, Kind, Meaning};

// ---- the rows

pub(crate) fn walk_body(
    air: Air,
    pdu: u8,
    buf: &[u8],
    bits: usize,
    at: usize,
) -> Result<usize, Stop>
    ensures { step_of result ≡ body_walk air pdu (bit_at buf.now) bits at }
{
    let row = message::row_of(pdu);
    let (span, p) = walk_parts(air, row.parts, row.count, buf, bits, at)?;
    walk_options(air, span, row.optional, row.options, buf, bits, p)
}

fn walk_parts(
    air: Air,
    parts: [Slot; 6],
    count: u8,
    buf: &[u8],
    bits: usize,
    at: usize,
) -> Result<(usize, usize), Stop>
    ensures { outcome_of result ≡ parts_walk air 0 count parts (bit_at buf.now) bits at }
{
    let mut span = 0;
    let mut next = at;
    for i in 0..(count as usize).min(6) {
        let (k, p) = walk_part(air, span, parts[i].part, buf, bits, next)?;
        span = k;
        next = p;
    }
    Ok((span, next))
}

fn walk_options(
    air: Air,
    span: usize,
    optional: [Slot; 7],
    count: u8,
    buf: &[u8],
    bits: usize,
    at: usize,
) -> Result<usize, Stop>
    ensures { step_of result ≡ options_walk air span count optional (bit_at buf.now) bits at }
{
    if count == 0 {
        return Ok(at);
    }
    let (o, p) = element::bit(message::O_BIT, buf, bits, at)?;
    if o {
        return walk_behind(air, span, optional, count, buf, bits, p);
    }
    Ok(p)
}

// After an O-bit of 1.
fn walk_behind(
    air: Air,
    span: usize,
    optional: [Slot; 7],
    count: u8,
    buf: &[u8],
    bits: usize,
    at: usize,
) -> Result<usize, Stop>
    ensures { step_of result ≡ behind_walk air span count optional (bit_at buf.now) bits at }
{
    let (some, p) = walk_each(air, span, optional, count, buf, bits, at)?;
    if !some {
        return Err(codec::refuse(12));
    }
    Ok(p)
}

// Whether one of the options was there, and the position.
fn walk_each(
    air: Air,
    users: usize,
    optional: [Slot; 7],
    count: u8,
    buf: &[u8],
    bits: usize,
    at: usize,
) -> Result<(bool, usize), Stop>
    ensures { outcome_of result ≡ each_walk air users false count optional (bit_at buf.now) bits at }
{
    let mut span = users;
    let mut some = false;
    let mut next = at;
    for i in 0..(count as usize).min(7) {
        let (there, p) = element::bit(message::P_BIT, buf, bits, next)?;
        if there {
            let (k, q) = walk_part(air, span, optional[i].part, buf, bits, p)?;
            span = k;
            some = true;
            next = q;
        } else {
            next = p;
        }
    }
    Ok((some, next))
}

// ---- one part

fn walk_part(
    air: Air,
    span: usize,
    part: Part,
    buf: &[u8],
    bits: usize,
    at: usize,
) -> Result<(usize, usize), Stop>
    ensures { outcome_of result ≡ part_walk air span part (bit_at buf.now) bits at }
{
    match part {
        Part::Nothing => Ok((span, at)),
        Part::Number(place) => {
            let element = message::element_of(place);
            let p = pass(element, bits, at, message::width_of(place))?;
            Ok((span, p))
        }
        Part::Users => walk_group(air, false, false, buf, bits, at),
        Part::User(_) | Part::Dispatcher => {
            let p = walk_address(false, buf, bits, at)?;
            Ok((span, p))
        }
        Part::Masked => walk_mask(air, span, buf, bits, at),
        Part::Result => walk_result(air, span, buf, bits, at),
        Part::Dispatchers | Part::Sources => {
            let (_, p) = walk_group(air, true, false, buf, bits, at)?;
            Ok((span, p))
        }
        Part::Interrogation => walk_state(air, span, buf, bits, at),
        Part::Destinations => {
            let (_, p) = walk_group(air, true, true, buf, bits, at)?;
            Ok((span, p))
        }
        Part::Areas => walk_areas(air, span, buf, bits, at),
    }
}

fn walk_mask(
    air: Air,
    span: usize,
    buf: &[u8],
    bits: usize,
    at: usize,
) -> Result<(usize, usize), Stop>
    ensures { outcome_of result ≡ part_walk air span Masked (bit_at buf.now) bits at }
{
    let (_, p) = ack::read_masked(span.min(64), buf, bits, at)?;
    Ok((span, p))
}

fn walk_result(
    air: Air,
    span: usize,
    buf: &[u8],
    bits: usize,
    at: usize,
) -> Result<(usize, usize), Stop>
    ensures { outcome_of result ≡ part_walk air span Result (bit_at buf.now) bits at }
{
    let (_, p) = ack::read_result(buf, bits, at)?;
    Ok((span, p))
}

fn walk_state(
    air: Air,
    span: usize,
    buf: &[u8],
    bits: usize,
    at: usize,
) -> Result<(usize, usize), Stop>
    ensures { outcome_of result ≡ part_walk air span Interrogation (bit_at buf.now) bits at }
{
    let (_, p) = ack::read_state(buf, bits, at)?;
    Ok((span, p))
}

fn walk_areas(
    air: Air,
    span: usize,
    buf: &[u8],
    bits: usize,
    at: usize,
) -> Result<(usize, usize), Stop>
    ensures { outcome_of result ≡ part_walk air span Areas (bit_at buf.now) bits at }
{
    let (_, p) = area::read_areas(air, buf, bits, at)?;
    Ok((span, p))
}

// ---- groups and addresses

fn walk_group(
    air: Air,
    none: bool,
    external: bool,
    buf: &[u8],
    bits: usize,
    at: usize,
) -> Result<(usize, usize), Stop>
    ensures { outcome_of result ≡ group_walk air none external (bit_at buf.now) bits at }
{
    let (range, p) = group::read_range(air, none, buf, bits, at)?;
    walk_list(
        external,
        profile::meaning_of(air.meanings, range),
        buf,
        bits,
        p,
    )
}

fn walk_list(
    external: bool,
    m: Meaning,
    buf: &[u8],
    bits: usize,
    at: usize,
) -> Result<(usize, usize), Stop>
    ensures { outcome_of result ≡ list_walk external m (bit_at buf.now) bits at }
{
    match m.kind {
        Kind::Listed => {
            let count = m.count as usize;
            let p = walk_addresses(external, count, buf, bits, at)?;
            Ok((count, p))
        }
        Kind::FirstLast => walk_ends(external, buf, bits, at),
        Kind::Nobody | Kind::Reserved => Ok((0, at)),
    }
}

fn walk_ends(external: bool, buf: &[u8], bits: usize, at: usize) -> Result<(usize, usize), Stop>
    ensures { outcome_of result ≡ ends_walk external (bit_at buf.now) bits at }
{
    let (a, p) = address::read_address(external, buf, bits, at)?;
    let (b, q) = address::read_address(external, buf, bits, p)?;
    if !message::range_ok(a, b) {
        return Err(codec::refuse(11));
    }
    Ok((message::span(a.ssi, b.ssi), q))
}

fn walk_addresses(
    external: bool,
    count: usize,
    buf: &[u8],
    bits: usize,
    at: usize,
) -> Result<usize, Stop>
    ensures { step_of result ≡ addresses_walk external count (bit_at buf.now) bits at }
{
    let mut next = at;
    for i in 0..count {
        next = walk_address(external, buf, bits, next)?;
    }
    Ok(next)
}

fn walk_address(external: bool, buf: &[u8], bits: usize, at: usize) -> Result<usize, Stop>
    ensures { step_of result ≡ address_walk external (bit_at buf.now) bits at }
{
    let (kind, p) = address::read_kind(external, buf, bits, at)?;
    let q = pass(message::SSI, bits, p, 24)?;
    if kind == 1 {
        return Ok(q);
    }
    pass(message::EXTENSION, bits, q, 24)
}

// An element whose number nobody asks for.
fn pass(element: u8, bits: usize, at: usize, width: usize) -> Result<usize, Stop>
    ensures { step_of result ≡ pass_of element bits at width }
{
    if at > bits || width > bits - at {
        return Err(codec::short_at(element, at));
    }
    Ok(at + width)
}
