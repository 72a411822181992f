// A call being set up.
ghost use Rattle.std.specs.Prelude.{◌≡◌, true, ◌<◌, ◌≤◌, ◌^◌, length, take};
ghost use Rattle.profile.specs.Rules.{profile_ok};
ghost use Rattle.message.specs.Addresses.{nobody};
ghost use Rattle.records.specs.Records.{second_of};
ghost use Rattle.desk.specs.Orders.{party_ok, set_up_ok, admit_answer, set_up_answer};
ghost use Rattle.desk.specs.Steps.{plain_step, plain_area, settled};

use crate::{Answer, Desk, Stepped, kept, notice};
use codec::Stop;
use places::Call;
use records::{Identity, Party, Record};

pub(crate) fn set_up(
    desk: Desk,
    rows: [Record; 128],
    count: usize,
    out: &mut [u8],
    caller: Identity,
    called: Identity,
    identifier: u32,
    cause: u32,
) -> Result<Stepped, Stop>
    requires { profile_ok desk.profile ≡ true }
    ensures { (settled desk result ≡ plain_step desk (record { identifier = identifier; second = second_of (take count rows) caller called; cause = cause; user = nobody }) (set_up_answer desk rows count (length out.old) caller called identifier cause))
        × (out.new ≡ plain_area desk (record { identifier = identifier; second = second_of (take count rows) caller called; cause = cause; user = nobody }) out.old (set_up_answer desk rows count (length out.old) caller called identifier cause)) }
{
    if !set_up_ok(caller, called, identifier, cause) {
        return Err(codec::refuse(16));
    }
    if out.len() < 300 {
        return Err(codec::refuse(14));
    }
    if !records::records_ok(rows, count, desk.profile.shares.posts) {
        return Err(codec::refuse(15));
    }
    let waiting = places::place_of(desk.places, identifier);
    let party = records::restricted(rows, count, caller, called);
    if waiting.found {
        return Err(codec::refuse(17));
    }
    if !party.found {
        return Ok(kept::keeps(desk, Answer::Free));
    }
    let second = records::second(rows, count, caller, called);
    admit(desk, party.post, second, identifier, cause, out)
}

// The places rule for the post, and the lowest free place; `second` is the post asked after this one. INTERCEPTED goes to the caller, REQUEST
// to the post.
fn admit(
    desk: Desk,
    post: u8,
    second: Party,
    identifier: u32,
    cause: u32,
    out: &mut [u8],
) -> Result<Stepped, Stop>
    requires { (profile_ok desk.profile ≡ true) × ((identifier < 2 ^ 14) × ((cause < 2 ^ 5) × (300 ≤ length out.old))) }
    ensures { (settled desk result ≡ plain_step desk (record { identifier = identifier; second = second; cause = cause; user = nobody }) (admit_answer desk post))
        × (out.new ≡ plain_area desk (record { identifier = identifier; second = second; cause = cause; user = nobody }) out.old (admit_answer desk post)) }
{
    if !places::admits(desk.profile.shares, desk.places, post) {
        return Err(codec::refuse(18));
    }
    let at = places::lowest_free(desk.places);
    let intercepted = message::blank(10);
    let first = sending::send(desk.profile, sending::no_laid(), intercepted, out);
    let laid = sending::send(desk.profile, first, notice::request(identifier, cause), out);
    let call = Call {
        identifier: identifier as u16,
        post,
        more: second.found,
        second: second.post,
        cause: cause as u8,
    };
    let next = places::take(desk.places, at.place, call);
    Ok(Stepped {
        answer: Answer::Admitted {
            post,
            place: at.place,
        },
        laid,
        desk: Desk {
            places: next,
            ..desk
        },
        marks: records::no_marks(),
    })
}

// 16 does not come.
#[tactic(auto, unfolding(crate::specs::Orders::set_up_ok, codec::specs::Codec::both))]
fn set_up_ok(caller: Identity, called: Identity, identifier: u32, cause: u32) -> bool
    ensures { result ≡ set_up_ok caller called identifier cause }
{
    identifier < 0x4000 && cause < 0x20 && party_ok(caller) && party_ok(called)
}

#[tactic(auto, unfolding(crate::specs::Orders::party_ok, codec::specs::Codec::both))]
fn party_ok(party: Identity) -> bool
    ensures { result ≡ party_ok party }
{
    party.ssi < 0x100_0000 && party.extension < 0x100_0000
}
