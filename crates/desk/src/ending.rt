// How a waiting call ends: by ACCEPT, DIVERT or REJECT from its post, by a reject from it, by a cancel from the switch. A call that has a second
// post is moved there by the first ACCEPT.
ghost use Rattle.std.specs.Prelude.{◌≡◌, true, false, length, ◌≤◌, ◌<◌, ◌^◌};
ghost use Rattle.profile.specs.Rules.{profile_ok};
ghost use Rattle.places.specs.Spots.{place_of};
ghost use Rattle.message.specs.Addresses.{nobody};
ghost use Rattle.sending.specs.Sending.{no_laid, send_laid, send_area};
ghost use Rattle.message.specs.Values.{identifier_in};
ghost use Rattle.places.specs.Held.{place_in};
ghost use Rattle.desk.specs.Desks.{desk_ok};
ghost use Rattle.desk.specs.Orders.{places_of, accept_answer, decide_answer, reject_answer, cancel_answer, ending_of};
ghost use Rattle.desk.specs.Steps.{spoken_by, named, said_in, plain_step, plain_area, ended_step, moved_step, moved_area, accepted_step, accepted_area, settled};
ghost use Rattle.desk.specs.declared.Answer.TheVariants as answer;

use crate::{Answer, Desk, Stepped, notice};
use codec::Stop;
use message::Value;
use places::Place;

pub(crate) fn accept(desk: Desk, post: u8, value: Value, out: &mut [u8]) -> Result<Stepped, Stop>
    requires { desk_ok desk ≡ true }
    ensures { (settled desk result ≡ plain_step desk (said_in value) (decide_answer desk (length out.old) post (identifier_in value) (accept_answer desk (place_of (places_of desk) (identifier_in value)).place)))
        × (out.new ≡ plain_area desk (said_in value) out.old (decide_answer desk (length out.old) post (identifier_in value) (accept_answer desk (place_of (places_of desk) (identifier_in value)).place))) }
{
    if out.len() < 300 {
        return Err(codec::refuse(14));
    }
    let identifier = message::number_at(value, message::IDENTIFIER_AT);
    let place = ending_of(desk, post, identifier)?;
    accepted(desk, place, out)
}

// The post where it waits accepts the call in the place: it proceeds, or moves on to its second post.
fn accepted(desk: Desk, place: u8, out: &mut [u8]) -> Result<Stepped, Stop>
    requires { (profile_ok desk.profile ≡ true) × (((place_in (places_of desk) place).identifier < 2 ^ 14) × (((place_in (places_of desk) place).cause < 2 ^ 5) × (300 ≤ length out.old))) }
    ensures { (settled desk result ≡ accepted_step desk place) × (out.new ≡ accepted_area desk place out.old) }
{
    let p = places::place_at(desk.places, place);
    if p.more {
        return moved(desk, place, p, out);
    }
    let accepted = message::blank(13);
    Ok(ended(desk, place, Answer::Proceed, accepted, out))
}

// The places rule for the second post, the call's own place taken as free, and REQUEST to it.
fn moved(desk: Desk, place: u8, p: Place, out: &mut [u8]) -> Result<Stepped, Stop>
    requires { (profile_ok desk.profile ≡ true) × ((p.identifier < 2 ^ 14) × ((p.cause < 2 ^ 5) × (300 ≤ length out.old))) }
    ensures { (settled desk result ≡ moved_step desk place p) × (out.new ≡ moved_area desk place p out.old) }
{
    let rest = places::clear(desk.places, place);
    if !places::admits(desk.profile.shares, rest, p.second) {
        return Err(codec::refuse(18));
    }
    let request = notice::request(p.identifier as u32, p.cause as u32);
    let laid = sending::send(desk.profile, sending::no_laid(), request, out);
    Ok(Stepped {
        answer: Answer::Moved { post: p.second },
        laid,
        desk: Desk {
            places: places::move_on(desk.places, place),
            ..desk
        },
        marks: records::no_marks(),
    })
}

pub(crate) fn divert(desk: Desk, post: u8, value: Value, out: &mut [u8]) -> Result<Stepped, Stop>
    requires { profile_ok desk.profile ≡ true }
    ensures { (settled desk result ≡ plain_step desk (said_in value) (decide_answer desk (length out.old) post (identifier_in value) answer.Diverted))
        × (out.new ≡ plain_area desk (said_in value) out.old (decide_answer desk (length out.old) post (identifier_in value) answer.Diverted)) }
{
    if out.len() < 300 {
        return Err(codec::refuse(14));
    }
    let identifier = message::number_at(value, message::IDENTIFIER_AT);
    let place = ending_of(desk, post, identifier)?;
    let diverted = message::blank(16);
    Ok(ended(desk, place, Answer::Diverted, diverted, out))
}

pub(crate) fn reject(
    desk: Desk,
    post: u64,
    identifier: u32,
    out: &mut [u8],
) -> Result<Stepped, Stop>
    requires { profile_ok desk.profile ≡ true }
    ensures { (settled desk result ≡ plain_step desk (named identifier) (reject_answer desk (length out.old) post identifier))
        × (out.new ≡ plain_area desk (named identifier) out.old (reject_answer desk (length out.old) post identifier)) }
{
    if post >= desk.profile.shares.posts as u64 {
        return Err(codec::refuse(2));
    }
    if identifier >= 0x4000 {
        return Err(codec::refuse(16));
    }
    rejected(desk, post as u8, identifier, 0, out)
}

// By a reject or by REJECT, with this cause.
pub(crate) fn rejected(
    desk: Desk,
    post: u8,
    identifier: u32,
    cause: u32,
    out: &mut [u8],
) -> Result<Stepped, Stop>
    requires { (profile_ok desk.profile ≡ true) × (cause < 2 ^ 5) }
    ensures { (settled desk result ≡ plain_step desk (spoken_by identifier cause nobody) (decide_answer desk (length out.old) post identifier answer.Rejected))
        × (out.new ≡ plain_area desk (spoken_by identifier cause nobody) out.old (decide_answer desk (length out.old) post identifier answer.Rejected)) }
{
    if out.len() < 300 {
        return Err(codec::refuse(14));
    }
    let place = ending_of(desk, post, identifier)?;
    let rejected = notice::rejected(cause);
    Ok(ended(desk, place, Answer::Rejected, rejected, out))
}

pub(crate) fn cancel(desk: Desk, identifier: u32, out: &mut [u8]) -> Result<Stepped, Stop>
    requires { profile_ok desk.profile ≡ true }
    ensures { (settled desk result ≡ plain_step desk (named identifier) (cancel_answer desk (length out.old) identifier))
        × (out.new ≡ plain_area desk (named identifier) out.old (cancel_answer desk (length out.old) identifier)) }
{
    if 0x4000 <= identifier {
        return Err(codec::refuse(16));
    }
    if out.len() < 300 {
        return Err(codec::refuse(14));
    }
    let waiting = places::place_of(desk.places, identifier);
    if !waiting.found {
        return Err(codec::refuse(19));
    }
    let p = places::place_at(desk.places, waiting.place);
    let cancel = notice::cancel(identifier);
    Ok(ended(
        desk,
        waiting.place,
        Answer::Cancelled { post: p.post },
        cancel,
        out,
    ))
}

// The place of a call that its post may end, or 19 or 20.
fn ending_of(desk: Desk, post: u8, identifier: u32) -> Result<u8, Stop>
    ensures { result ≡ ending_of desk post identifier }
{
    let at = places::place_of(desk.places, identifier);
    if !at.found {
        return Err(codec::refuse(19));
    }
    let p = places::place_at(desk.places, at.place);
    if p.post != post {
        return Err(codec::refuse(20));
    }
    Ok(at.place)
}

// The call in the place waits no more: this message says so.
fn ended(desk: Desk, place: u8, answer: Answer, message: Value, out: &mut [u8]) -> Stepped
    ensures { (result ≡ ended_step desk place answer (send_laid desk.profile no_laid out.old message))
        × (out.new ≡ send_area desk.profile no_laid out.old message) }
{
    let laid = sending::send(desk.profile, sending::no_laid(), message, out);
    Stepped {
        answer,
        laid,
        desk: Desk {
            places: places::clear(desk.places, place),
            ..desk
        },
        marks: records::no_marks(),
    }
}
