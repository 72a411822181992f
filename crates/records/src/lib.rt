// The user records, by value (document 01, "User records and waiting calls"): the record of an identity, and what a call learns from
// the records. ACTIVATE and DEACTIVATE get the masks of their outcomes and which records to mark, INTERROGATE a state, set-up the restricted party's post.
//
// `rows` has room for 128 records; the first `count` are lent, and the others are never looked at. No heap: so they are an array and a count
// where they cross to desk and host; in here they are a slice. Every function takes every input, also records that refusal 15 would name.
// The files go from small to large: identities, search, outcome.
#![tactic(auto)]

ghost use Rattle.std.specs.Prelude.{◌≡◌, [], ◌∷◌, take};
ghost use Rattle.records.specs.Identities.{identity_of, identities_of};
ghost use Rattle.records.specs.Records.{records_ok, state_of, restricted_of, second_of, party_by};
ghost use Rattle.records.specs.Outcomes.{outcomes_of, sorted_of};
ghost use Rattle.records.specs.Marking.{marks_of, no_marks};
ghost use Rattle.records.specs.Judging.{judged_of};

use message::{Address, Group};
use profile::{Air, Profile};

mod identities;
mod outcome;
mod search;

// `active` is the mark. A record that is not in use is never looked at. It is lent by the host with anything in it, so `in_use` is a flag: an
// option, or numbers in a type of 24 bits, would ask more of who lends it.
#[derive(Clone, Copy)]
pub struct Record {
    pub in_use: bool,
    pub ssi: u32,
    pub extension: u32,
    pub post: u8,
    pub active: bool,
}

#[derive(Clone, Copy)]
pub struct Identity {
    pub ssi: u32,
    pub extension: u32,
}

// The post of the first restricted party; where none is, `found` is false and the post 0. A struct and no option: definitions of
// desk and history name its fields (`Spoken`, `second_of`).
#[derive(Clone, Copy)]
pub struct Party {
    pub found: bool,
    pub post: u8,
}

// Of each outcome, 0 accepted, 1 failure U, 2 failure N: whether an identity has it, and the mask of those that do. Identity i,
// from 0, is bit 63 − i. Where U = N both failures are 1. An outcome is the place in both arrays, as `sending` lays the ACKs; `send_acks` takes
// every `some` beside every mask, so it is no Option of a mask.
#[derive(Clone, Copy)]
pub struct Sorted {
    pub some: [bool; 3],
    pub mask: [u64; 3],
}

// Which records' mark is changed, and what it becomes.
#[derive(Clone, Copy)]
pub struct Marks {
    pub at: [bool; 128],
    pub mark: bool,
}

// What a request to change marks comes to: the outcomes of its identities, and the marks of the accepted ones.
#[derive(Clone, Copy)]
pub struct Judged {
    pub sorted: Sorted,
    pub marks: Marks,
}

// The ground of refusal 15 does not hold: at most 128 are lent, and each in use has a post below `posts` and numbers of 24 bits.
#[tactic(auto, unfolding(crate::specs::Records::records_ok, codec::specs::Codec::both))]
pub fn records_ok(rows: [Record; 128], count: usize, posts: u8) -> bool
    ensures { result ≡ records_ok rows count posts }
{
    count <= Profile::RECORDS && search::all_ok(search::lent(&rows, count), posts)
}

// What INTERROGATE from a post answers: 0 no record, 1 another post's, 2 active, 3 not active. A number, as `Answer::State` carries it.
pub fn state_of(air: Air, rows: [Record; 128], count: usize, post: u8, address: Address) -> u8
    ensures { result ≡ state_of (take count rows) post (identity_of air address) }
{
    search::state(
        search::lent(&rows, count),
        post,
        identities::identity_of(air, address),
    )
}

// The post that a call is for: the caller's if the caller's record restricts it, else the called party's, if that does.
pub fn restricted(rows: [Record; 128], count: usize, caller: Identity, called: Identity) -> Party
    ensures { result ≡ restricted_of (take count rows) (caller ∷ called ∷ []) }
{
    let lent = search::lent(&rows, count);
    party_of(search::first_restricting(lent, [caller, called]))
}

// The post that is asked after that one: the called party's, if both records restrict the call and their posts differ.
pub fn second(rows: [Record; 128], count: usize, caller: Identity, called: Identity) -> Party
    ensures { result ≡ second_of (take count rows) caller called }
{
    let lent = search::lent(&rows, count);
    let first = search::restricting(lent, caller);
    let other = search::restricting(lent, called);
    party_of(if first.is_some() && first != other {
        other
    } else {
        None
    })
}

fn party_of(post: Option<u8>) -> Party
    ensures { result ≡ party_by post }
{
    match post {
        Some(post) => Party { found: true, post },
        None => Party {
            found: false,
            post: 0,
        },
    }
}

// What an ACTIVATE or DEACTIVATE of the group from a post comes to; the mark of the accepted ones becomes `to`. One walk over the
// identities: each is searched for once, and the mask of its outcome (0 accepted, 1 failure U, `other` failure N) gets its bit.
pub fn judged_of(
    air: Air,
    group: Group,
    rows: [Record; 128],
    count: usize,
    post: u8,
    to: bool,
) -> Judged
    ensures { result ≡ judged_of to air group (take count rows) post }
{
    let lent = search::lent(&rows, count);
    let other = outcome::other_of(air);
    let mut masks = [0u64; 3];
    let mut at = [false; 128];
    let n = identities::count_of(air, group);
    for i in 0..n {
        let id = identities::identity_at(air, group, i);
        let bit = outcome::bit_of(i);
        match search::record_of(lent, id) {
            None => {
                masks[1] += bit;
            }
            Some(k) if lent[k].post == post => {
                masks[0] += bit;
                at[k] = true;
            }
            Some(_) => {
                masks[other] += bit;
            }
        }
    }
    Judged {
        sorted: outcome::sorted_by(masks),
        marks: Marks { at, mark: to },
    }
}

// Of that the outcomes alone.
pub fn sorted_of(air: Air, group: Group, rows: [Record; 128], count: usize, post: u8) -> Sorted
    ensures { result ≡ sorted_of (outcomes_of air group (take count rows) post) }
{
    judged_of(air, group, rows, count, post, false).sorted
}

// Of that the marks alone.
pub fn marks_of(
    air: Air,
    group: Group,
    rows: [Record; 128],
    count: usize,
    post: u8,
    to: bool,
) -> Marks
    ensures { result ≡ marks_of to (take count rows) post (identities_of air group) }
{
    judged_of(air, group, rows, count, post, to).marks
}

// None is changed.
pub fn no_marks() -> Marks
    ensures { result ≡ no_marks }
{
    Marks {
        at: [false; 128],
        mark: false,
    }
}
