// One call of the host on what it lends (document 01, "User records and waiting calls"): the desk, the user records, the message and the
// output area. Nothing is decided here. The records are loaded, desk's `step` is taken by value, the desk is stored and the marks are written.
// New shares likewise: desk's `change_shares` is taken by value, and the desk is stored.
#![tactic(auto)]

ghost use Rattle.std.specs.Prelude.{◌≡◌};
ghost use Rattle.host.specs.Lending.{loaded_of, set_mark, marked_by, Called, SharesChanged};

use desk::{Answer, Change, Desk, Event};
use profile::{Profile, Share};
use records::{Marks, Record};
use sending::Laid;

// What the host is told: the answer, how many messages were laid in the output area, and their lengths in bits.
#[derive(Clone, Copy)]
pub struct Told {
    pub answer: Answer,
    pub laid: Laid,
}

// The mark of one record. Nothing else writes to a record. A number past the last record changes nothing.
pub fn set_mark(records: &mut [Record], at: usize, mark: bool)
    ensures { records.new ≡ set_mark records.old at mark }
{
    if at < records.len() {
        records[at].active = mark;
    }
}

// The first 128 records, and no record beyond what is lent.
pub fn load(records: &[Record]) -> [Record; 128]
    ensures { result ≡ loaded_of records.now }
{
    let none = Record {
        in_use: false,
        ssi: 0,
        extension: 0,
        post: 0,
        active: false,
    };
    let mut rows = [none; 128];
    let lent = records.len().min(Profile::RECORDS);
    rows[..lent].copy_from_slice(&records[..lent]);
    rows
}

// One call. The step is told the true number of records: of more than 128 it is the step that refuses, in its order.
pub fn call(
    desk: &mut Desk,
    records: &mut [Record],
    event: Event,
    message: &[u8],
    out: &mut [u8],
) -> Told
    ensures { Called desk.old records.old message.now out.old event result desk.new records.new out.new }
{
    let s = desk::step(*desk, load(records), records.len(), message, out, event);
    *desk = s.desk;
    set_marks(records, s.marks);
    Told {
        answer: s.answer,
        laid: s.laid,
    }
}

// New shares on the lent desk, a row for each of its posts: taken, or refused and the desk as it stood.
pub fn change_shares(desk: &mut Desk, rows: [Share; 8]) -> Change
    ensures { SharesChanged desk.old rows result desk.new }
{
    let c = desk::change_shares(*desk, rows);
    *desk = c.desk;
    c.change
}

// The mark of each record that is said becomes what is said.
fn set_marks(records: &mut [Record], marks: Marks)
    ensures { records.new ≡ marked_by records.old marks }
{
    for i in 0..Profile::RECORDS {
        if marks.at[i] {
            set_mark(records, i, marks.mark);
        }
    }
}
