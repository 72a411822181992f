// The messages that say which call they are of, or why; and INTERROGATE ACK.
ghost use Rattle.std.specs.Prelude.{◌≡◌};
ghost use Rattle.profile.specs.Counting.{one};
ghost use Rattle.desk.specs.Notices.{request_with, rejected_with, cancel_of, one_user, not_accepted, is_active, told_of, state_ack};

use message::{Address, Group, State, Value};
use profile::Air;

pub(crate) fn request(identifier: u32, cause: u32) -> Value
    ensures { result ≡ request_with identifier cause }
{
    let named = message::with_number(message::blank(11), message::IDENTIFIER_AT, identifier);
    message::with_number(named, message::CAUSE_AT, cause)
}

pub(crate) fn rejected(cause: u32) -> Value
    ensures { result ≡ rejected_with cause }
{
    message::with_number(message::blank(18), message::CAUSE_AT, cause)
}

pub(crate) fn cancel(identifier: u32) -> Value
    ensures { result ≡ cancel_of identifier }
{
    message::with_number(message::blank(14), message::IDENTIFIER_AT, identifier)
}

pub(crate) fn state_ack(air: Air, user: Address, state: u8) -> Value
    ensures { result ≡ state_ack air user state }
{
    let users = one_user(air, user);
    let told = told_of(air, state);
    message::with_state(message::with_users(message::blank(9), users), told)
}

#[tactic(auto, unfolding(crate::specs::Notices::one_user, message::specs::Groups::nobodies))]
fn one_user(air: Air, user: Address) -> Group
    ensures { result ≡ one_user air user }
{
    let mut addresses = [message::NOBODY; 15];
    addresses[0] = user;
    Group {
        range: profile::list_of_one(air.meanings),
        addresses,
    }
}

#[tactic(auto, unfolding(crate::specs::Notices::told_of))]
fn told_of(air: Air, state: u8) -> State
    ensures { result ≡ told_of air state }
{
    match state {
        0 => not_accepted(air.unrecorded),
        1 => not_accepted(air.elsewhere),
        _ => is_active(state == 2),
    }
}

fn not_accepted(reason: u8) -> State
    ensures { result ≡ not_accepted reason }
{
    State {
        result: 0,
        reason: reason as u32,
        activation: 0,
        interception: 0,
        called: 0,
        calling: 0,
    }
}

fn is_active(active: bool) -> State
    ensures { result ≡ is_active (one active) }
{
    State {
        result: 1,
        reason: 0,
        activation: u32::from(active),
        interception: 0,
        called: 0,
        calling: 0,
    }
}
