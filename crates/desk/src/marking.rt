// A request to change marks: ACTIVATE, DEACTIVATE.
ghost use Rattle.std.specs.Prelude.{◌≡◌, true, false, ◌≤◌, length, take};
ghost use Rattle.profile.specs.Rules.{profile_ok};
ghost use Rattle.message.specs.Groups.{group_c};
ghost use Rattle.message.specs.Rows.{ack_row, row_of};
ghost use Rattle.desk.specs.Orders.{someone_by, names_dispatchers, marking_answer};
ghost use Rattle.desk.specs.Steps.{asked_in, said_in, acks_step, acks_area, step_by, area_by, settled};

use crate::{Answer, Desk, Stepped};
use codec::Stop;
use message::{Group, Value};
use profile::{Air, Kind, Meaning};
use records::Record;

// What a request asks: of these users, answered by ACKs of this type, that the mark of the accepted ones becomes `mark`.
#[derive(Clone, Copy)]
pub struct Asked {
    pub users: Group,
    pub ack: u8,
    pub mark: bool,
}

// 14, 15, 21 where dispatcher addresses are given, or the request is carried out.
pub(crate) fn change(
    desk: Desk,
    rows: [Record; 128],
    count: usize,
    post: u8,
    value: Value,
    given: bool,
    out: &mut [u8],
) -> Result<Stepped, Stop>
    requires { (profile_ok desk.profile ≡ true) × ((group_c desk.profile.air false false).ok value.users ≡ true) }
    ensures { (settled desk result ≡ step_by desk (take count rows) post (asked_in value) (said_in value) (marking_answer desk rows count (length out.old) given))
        × (out.new ≡ area_by desk (take count rows) post (asked_in value) (said_in value) out.old (marking_answer desk rows count (length out.old) given)) }
{
    let sound = records::records_ok(rows, count, desk.profile.shares.posts);
    if out.len() < 300 {
        return Err(codec::refuse(14));
    }
    if !sound {
        return Err(codec::refuse(15));
    }
    if given {
        return Err(codec::refuse(21));
    }
    Ok(acks(desk, rows, count, post, asked_in(value), out))
}

#[tactic(auto, unfolding(crate::specs::Steps::ack_for, crate::specs::Steps::sets_mark))]
fn asked_in(value: Value) -> Asked
    ensures { result ≡ asked_in value }
{
    if value.pdu == 2 {
        return Asked {
            users: value.users,
            ack: 3,
            mark: true,
        };
    }
    Asked {
        users: value.users,
        ack: 5,
        mark: false,
    }
}

// The ACKs, and the marks of the accepted ones.
fn acks(
    desk: Desk,
    rows: [Record; 128],
    count: usize,
    post: u8,
    asked: Asked,
    out: &mut [u8],
) -> Stepped
    requires { (profile_ok desk.profile ≡ true) × ((row_of asked.ack ≡ ack_row) × (((group_c desk.profile.air false false).ok asked.users ≡ true) × (300 ≤ length out.old))) }
    ensures { (result ≡ acks_step desk (take count rows) post asked)
        × (out.new ≡ acks_area desk (take count rows) post asked out.old) }
{
    let judged = records::judged_of(desk.profile.air, asked.users, rows, count, post, asked.mark);
    let laid = sending::send_acks(desk.profile, asked.ack, asked.users, judged.sorted, out);
    Stepped {
        answer: Answer::Acks,
        laid,
        desk,
        marks: judged.marks,
    }
}

// Dispatcher addresses are given.
#[tactic(auto, unfolding(crate::specs::Orders::names_dispatchers, codec::specs::Codec::both))]
pub(crate) fn names_dispatchers(air: Air, value: Value) -> bool
    ensures { result ≡ names_dispatchers air value }
{
    message::given_at(value, 0)
        && names_someone(profile::meaning_of(air.meanings, value.dispatchers.range))
}

fn names_someone(m: Meaning) -> bool
    ensures { result ≡ someone_by m.kind }
{
    !matches!(m.kind, Kind::Nobody)
}
