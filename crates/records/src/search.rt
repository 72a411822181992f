// The record of an identity, by a search from record 0 on, and the questions that one search answers. `rows` are the records lent.
ghost use Rattle.std.specs.Prelude.{◌≡◌, take, option_map};
ghost use Rattle.records.specs.Records.{is, row_of, record_of, record_ok, all_ok, state_of, restricting, restricted_of, party_by};

use crate::{Identity, Record};
use profile::Profile;

// The records lent: the first `count` of the rows.
pub(crate) fn lent(rows: &[Record; 128], count: usize) -> &[Record]
    ensures { result.now ≡ take count rows.now }
{
    &rows[..count.min(Profile::RECORDS)]
}

// The record is in use and has the identity.
#[tactic(auto, unfolding(crate::specs::Records::is, codec::specs::Codec::both))]
fn is_of(r: Record, id: Identity) -> bool
    ensures { result ≡ is r id }
{
    r.in_use && r.ssi == id.ssi && r.extension == id.extension
}

// The number of an identity's record: the lowest-numbered in use that has it.
pub(crate) fn record_of(rows: &[Record], id: Identity) -> Option<usize>
    ensures { result ≡ record_of rows.now id }
{
    rows.iter().position(|r| is_of(*r, id))
}

// That record itself.
fn holder(rows: &[Record], id: Identity) -> Option<Record>
    ensures { result ≡ option_map (row_of rows.now) (record_of rows.now id) }
{
    rows.iter().find(|r| is_of(**r, id)).copied()
}

// ---- refusal 15

pub(crate) fn all_ok(rows: &[Record], posts: u8) -> bool
    ensures { result ≡ all_ok posts rows.now }
{
    rows.iter().all(|r| record_ok(*r, posts))
}

#[tactic(auto, unfolding(crate::specs::Records::record_ok, codec::specs::Codec::both))]
fn record_ok(row: Record, posts: u8) -> bool
    ensures { result ≡ record_ok posts row }
{
    !row.in_use || row.post < posts && row.ssi <= 0xFF_FFFF && row.extension <= 0xFF_FFFF
}

// ---- INTERROGATE

#[tactic(auto, unfolding(crate::specs::Records::state_of))]
pub(crate) fn state(rows: &[Record], post: u8, id: Identity) -> u8
    ensures { result ≡ state_of rows.now post id }
{
    match holder(rows, id) {
        None => 0,
        Some(r) if r.post != post => 1,
        Some(r) if r.active => 2,
        Some(_) => 3,
    }
}

// ---- set-up

// The post of the first party whose record restricts: a search over the parties, and for each over the records, left by label at the first
// record that restricts. So the called party is not looked up where the caller's record restricts.
pub(crate) fn first_restricting(rows: &[Record], parties: [Identity; 2]) -> Option<u8>
    ensures { party_by result ≡ restricted_of rows.now parties }
{
    let mut post = None;
    'parties: for k in 0..2 {
        for i in 0..rows.len() {
            if is_of(rows[i], parties[k]) {
                if rows[i].active {
                    post = Some(rows[i].post);
                    break 'parties;
                }
                continue 'parties;
            }
        }
    }
    post
}

// The post of an identity's record, if that restricts a call: its mark is set.
pub(crate) fn restricting(rows: &[Record], id: Identity) -> Option<u8>
    ensures { result ≡ restricting rows.now id }
{
    let r = holder(rows, id)?;
    r.active.then_some(r.post)
}
