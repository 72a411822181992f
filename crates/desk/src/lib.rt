// The call desk of one network (document 01, "User records and waiting calls"): what each call is answered and does, by value.
//
// `step` takes the desk, the records and an event, and answers the step: the answer, the messages laid in the output area, the desk
// afterwards and the records whose mark changes. It equals `step_of`, and the area afterwards `area_after`, for every input (specs/Orders
// has each call's order of refusals, specs/Steps what follows from an answer). `change_shares` changes the posts' shares of the places
// (specs/Changes). The files: ending (how a waiting call ends), setup, posted (a post's message by its type), marking (ACTIVATE and
// DEACTIVATE), sharing (new shares). A step inside them is a Result, and its refusal a Stop: `step` alone says what a refusal leaves.
//
// That the profile passes is asked of each function by itself, and no struct carries it beside the desk: every clause and every line here would
// name the desk inside that struct. The area's 300 bytes are tested where each call's order has it, and asked of what comes after. `rows` and `count` are handed on as two, as the functions of `records` take them.
#![tactic(auto)]

ghost use Rattle.std.specs.Prelude.{◌≡◌};
ghost use Rattle.desk.specs.Changes.{change_of};
ghost use Rattle.desk.specs.Desks.{open_of, desk_ok};
ghost use Rattle.desk.specs.Steps.{step_of, area_after, settled};

use codec::Stop;
use places::Places;
use profile::{Profile, Share};
use records::{Identity, Marks, Record};
use sending::Laid;

mod ending;
mod kept;
mod marking;
mod notice;
mod posted;
mod setup;
mod sharing;

#[derive(Clone, Copy)]
pub struct Desk {
    pub profile: Profile,
    pub places: Places,
}

// What comes to the desk: a message from a post, a call being set up, and the plain calls that end a waiting one.
#[derive(Clone, Copy)]
pub enum Event {
    Message {
        post: u64,
        bits: u64,
    },
    SetUp {
        caller: Identity,
        called: Identity,
        identifier: u32,
        cause: u32,
    },
    Reject {
        post: u64,
        identifier: u32,
    },
    Cancel {
        identifier: u32,
    },
}

// `State` is 0 no record, 1 another post's, 2 active, 3 not active: a number, since `said` of words takes every u8 of it.
#[derive(Clone, Copy)]
pub enum Answer {
    Refused(Stop),
    Acks,
    State(u8),
    Free,
    Admitted { post: u8, place: u8 },
    Proceed,
    Diverted,
    Rejected,
    Cancelled { post: u8 },
    Moved { post: u8 },
}

#[derive(Clone, Copy)]
pub struct Stepped {
    pub answer: Answer,
    pub laid: Laid,
    pub desk: Desk,
    pub marks: Marks,
}

// What a change of the shares is answered: it is taken, or refused. No Result: `said_change` of words takes every value of it, also one that is
// taken and has a stop.
#[derive(Clone, Copy)]
pub struct Change {
    pub taken: bool,
    pub stop: Stop,
}

// The answer, and the desk afterwards.
#[derive(Clone, Copy)]
pub struct Changed {
    pub change: Change,
    pub desk: Desk,
}

impl Desk {
    // All 32 places are free; 1 for a profile that breaks a rule.
    #[tactic(auto, unfolding(crate::specs::Desks::open_of, profile::specs::Rules::new_of, places::specs::Held::no_places))]
    pub fn open(profile: Profile) -> Result<Desk, Stop>
        ensures { result ≡ open_of profile }
    {
        Ok(Desk {
            profile: Profile::new(profile.air, profile.shares)?,
            places: Places {
                place: [places::FREE; 32],
            },
        })
    }
}

pub fn step(
    desk: Desk,
    rows: [Record; 128],
    count: usize,
    message: &[u8],
    out: &mut [u8],
    event: Event,
) -> Stepped
    ensures { (result ≡ step_of desk rows count message.now out.old event)
        × (out.new ≡ area_after desk rows count message.now out.old event) }
{
    match answered(desk, rows, count, message, out, event) {
        Ok(stepped) => stepped,
        Err(stop) => kept::keeps(desk, Answer::Refused(stop)),
    }
}

// The step, or the refusal that leaves all as it stood.
fn answered(
    desk: Desk,
    rows: [Record; 128],
    count: usize,
    message: &[u8],
    out: &mut [u8],
    event: Event,
) -> Result<Stepped, Stop>
    ensures { (settled desk result ≡ step_of desk rows count message.now out.old event)
        × (out.new ≡ area_after desk rows count message.now out.old event) }
{
    if !desk_ok(desk) {
        return Err(codec::refuse(1));
    }
    match event {
        Event::Message { post, bits } => {
            posted::post_message(desk, rows, count, message, out, post, bits)
        }
        Event::SetUp {
            caller,
            called,
            identifier,
            cause,
        } => setup::set_up(desk, rows, count, out, caller, called, identifier, cause),
        Event::Reject { post, identifier } => ending::reject(desk, post, identifier, out),
        Event::Cancel { identifier } => ending::cancel(desk, identifier, out),
    }
}

// New shares on a desk where calls may wait: a row for each post, reserved number and ceiling; rows past the posts are not looked at. 23 if
// they break a rule of the profile, 24 if they don't fit what is held.
pub fn change_shares(desk: Desk, rows: [Share; 8]) -> Changed
    ensures { result ≡ change_of desk rows }
{
    match sharing::shared(desk, rows) {
        Ok(shared) => Changed {
            change: Change {
                taken: true,
                stop: codec::no_stop(),
            },
            desk: shared,
        },
        Err(stop) => Changed {
            change: Change { taken: false, stop },
            desk,
        },
    }
}

// 1 does not come.
#[tactic(auto, unfolding(crate::specs::Desks::desk_ok, codec::specs::Codec::both))]
pub(crate) fn desk_ok(desk: Desk) -> bool
    ensures { result ≡ desk_ok desk }
{
    profile::profile_ok(desk.profile) && places::places_ok(desk.profile.shares, desk.places)
}
