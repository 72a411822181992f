// A post's message.
ghost use Rattle.std.specs.Prelude.{◌≡◌, true, false, length, take};
ghost use Rattle.profile.specs.Rules.{profile_ok};
ghost use Rattle.message.specs.Addresses.{address_c};
ghost use Rattle.message.specs.Groups.{first_of};
ghost use Rattle.message.specs.Reading.{read_of};
ghost use Rattle.validity.specs.Validity.{valid_of};
ghost use Rattle.desk.specs.Desks.{desk_ok};
ghost use Rattle.desk.specs.Orders.{interrogate_answer, sent_answer, message_answer};
ghost use Rattle.desk.specs.Steps.{value_by, asked_in, said_in, plain_step, plain_area, step_by, area_by, settled};

use crate::{Answer, Desk, Stepped, ending, marking, notice};
use codec::Stop;
use message::Value;
use records::Record;

pub(crate) fn post_message(
    desk: Desk,
    rows: [Record; 128],
    count: usize,
    message: &[u8],
    out: &mut [u8],
    post: u64,
    bits: u64,
) -> Result<Stepped, Stop>
    requires { desk_ok desk ≡ true }
    ensures { (settled desk result ≡ step_by desk (take count rows) post (asked_in (value_by (read_of desk.profile message.now bits))) (said_in (value_by (read_of desk.profile message.now bits))) (message_answer desk rows count message.now (length out.old) post bits))
        × (out.new ≡ area_by desk (take count rows) post (asked_in (value_by (read_of desk.profile message.now bits))) (said_in (value_by (read_of desk.profile message.now bits))) out.old (message_answer desk rows count message.now (length out.old) post bits)) }
{
    if post >= desk.profile.shares.posts as u64 {
        return Err(codec::refuse(2));
    }
    let value = reading::read(desk.profile, message, bits as usize)?;
    sent(desk, rows, count, out, post as u8, value)
}

// By its type; 8 for those that posts don't send.
fn sent(
    desk: Desk,
    rows: [Record; 128],
    count: usize,
    out: &mut [u8],
    post: u8,
    value: Value,
) -> Result<Stepped, Stop>
    requires { (desk_ok desk ≡ true) × (valid_of desk.profile.air value ≡ true) }
    ensures { (settled desk result ≡ step_by desk (take count rows) post (asked_in value) (said_in value) (sent_answer desk rows count (length out.old) post value))
        × (out.new ≡ area_by desk (take count rows) post (asked_in value) (said_in value) out.old (sent_answer desk rows count (length out.old) post value)) }
{
    match value.pdu {
        2 => {
            let given = marking::names_dispatchers(desk.profile.air, value);
            marking::change(desk, rows, count, post, value, given, out)
        }
        4 => marking::change(desk, rows, count, post, value, false, out),
        8 => interrogate(desk, rows, count, post, value, out),
        12 => ending::accept(desk, post, value, out),
        15 => ending::divert(desk, post, value, out),
        17 => ending::rejected(
            desk,
            post,
            message::number_at(value, message::IDENTIFIER_AT),
            message::number_at(value, message::CAUSE_AT),
            out,
        ),
        _ => Err(codec::refuse(8)),
    }
}

// 14, 15, 26, or the state of the user that it asks for, also as INTERROGATE ACK.
fn interrogate(
    desk: Desk,
    rows: [Record; 128],
    count: usize,
    post: u8,
    value: Value,
    out: &mut [u8],
) -> Result<Stepped, Stop>
    requires { (profile_ok desk.profile ≡ true) × ((address_c false).ok (first_of value.users) ≡ true) }
    ensures { (settled desk result ≡ plain_step desk (said_in value) (interrogate_answer desk rows count (length out.old) post value))
        × (out.new ≡ plain_area desk (said_in value) out.old (interrogate_answer desk rows count (length out.old) post value)) }
{
    let air = desk.profile.air;
    let sound = records::records_ok(rows, count, desk.profile.shares.posts);
    let one = profile::list_of_one(air.meanings);
    if out.len() < 300 {
        return Err(codec::refuse(14));
    }
    if !sound {
        return Err(codec::refuse(15));
    }
    if one >= 16 {
        return Err(codec::refuse(26));
    }
    let user = message::address_at(value.users, 0);
    let state = records::state_of(air, rows, count, post, user);
    let ack = notice::state_ack(air, user, state);
    let laid = sending::send(desk.profile, sending::no_laid(), ack, out);
    Ok(Stepped {
        answer: Answer::State(state),
        laid,
        desk,
        marks: records::no_marks(),
    })
}
