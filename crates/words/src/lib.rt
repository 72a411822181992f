// The words that a replay prints (docs/REPLAY.md): from the desk's answer to bytes.
//
// `said` is the text of `words_of` for every answer. The files: texts (numbers and bytes as text), answers (the words of each answer and of
// a dump's parts).
#![tactic(auto)]

ghost use Rattle.std.specs.Prelude.{◌≡◌, ℕ, List};
ghost use Rattle.std.specs.Fn.{FnOnceReturnsAtMut};
ghost use Rattle.blocks.specs.Texts.{no_room, text_of};
ghost use Rattle.words.specs.Words.{refused_of, words_of, change_words, place_words, record_words};

use blocks::Text;
use desk::{Answer, Change};
use places::Place;
use records::Record;
use sending::Laid;

mod answers;
mod texts;

// What is printed for an answer of the desk, after the line's number.
pub fn said(answer: Answer, laid: Laid, area: &[u8]) -> Text
    ensures { result ≡ text_of (words_of answer laid area.now) }
{
    written(|block| answers::answer(block, 0, answer, laid, area))
}

// What is printed for a refusal that is no answer to a call.
pub fn said_refused(number: u8) -> Text
    ensures { result ≡ text_of (refused_of number) }
{
    written(|block| answers::refused(block, 0, number))
}

// What is printed for new shares.
pub fn said_change(change: Change) -> Text
    ensures { result ≡ text_of (change_words change) }
{
    written(|block| answers::change(block, 0, change))
}

// What is printed of a place in a dump.
pub fn said_place(i: u8, place: Place) -> Text
    ensures { result ≡ text_of (place_words i place) }
{
    written(|block| answers::place_part(block, 0, i, place))
}

// What is printed of a record in a dump.
pub fn said_record(i: u8, row: Record) -> Text
    ensures { result ≡ text_of (record_words i row) }
{
    written(|block| answers::record_part(block, 0, i, row))
}

// What is put into a block of zeros, and where it ends.
fn written<F: FnOnce(&mut [u8]) -> usize>(put: F) -> Text
    requires { F.IsAlwaysCallable put }
    ensures { FnOnceReturnsAtMut F.FnOnce put no_room result.len result.bytes }
{
    let mut bytes = [0; 1152];
    let len = put(&mut bytes);
    Text { len, bytes }
}
