// The words of an answer, put into a block at an index; answered is where they end.
ghost use Rattle.std.specs.Prelude.{◌≡◌, ◌++◌};
ghost use Rattle.blocks.specs.Blocks.{Wrote};
ghost use Rattle.words.specs.Words.{message_hex, bits_in, refused_of, element_word, broke_words, state_word, state_words, ack_bits, ack_hex, acks_words, admitted_words, post_words, words_of, change_words, second_words, cause_words, place_words, record_words};

use crate::texts;
use codec::Stop;
use desk::{Answer, Change};
use places::Place;
use records::Record;
use sending::Laid;

#[tactic(auto, unfolding(crate::specs::Words::words_of))]
pub(crate) fn answer(block: &mut [u8], at: usize, answer: Answer, laid: Laid, area: &[u8]) -> usize
    ensures { Wrote block.old at block.new result (words_of answer laid area.now) }
{
    match answer {
        Answer::Refused(s) => stopped(block, at, s),
        Answer::Acks => acks(block, at, laid, area),
        Answer::State(k) => told(block, at, k, laid, area),
        Answer::Free => texts::add(block, at, b"free"),
        Answer::Admitted { post, place } => admitted(block, at, post, place, laid, area),
        Answer::Proceed => sent(block, at, b"proceed ", laid, area, 0),
        Answer::Diverted => sent(block, at, b"diverted ", laid, area, 0),
        Answer::Rejected => sent(block, at, b"rejected ", laid, area, 0),
        Answer::Cancelled { post } => posted(block, at, b"cancelled ", post, laid, area),
        Answer::Moved { post } => posted(block, at, b"moved ", post, laid, area),
    }
}

// A refusal, and where a message broke off.
fn stopped(block: &mut [u8], at: usize, stop: Stop) -> usize
    ensures { Wrote block.old at block.new result (refused_of stop.number ++ broke_words stop) }
{
    let numbered = refused(block, at, stop.number);
    broke(block, numbered, stop)
}

#[tactic(auto, unfolding(crate::specs::Words::refused_of))]
pub(crate) fn refused(block: &mut [u8], at: usize, number: u8) -> usize
    ensures { Wrote block.old at block.new result (refused_of number) }
{
    texts::add_numbered(block, at, b"refused ", number as u32)
}

// What new shares are answered.
#[tactic(auto, unfolding(crate::specs::Words::change_words))]
pub(crate) fn change(block: &mut [u8], at: usize, change: Change) -> usize
    ensures { Wrote block.old at block.new result (change_words change) }
{
    if change.taken {
        return texts::add(block, at, b"taken");
    }
    refused(block, at, change.stop.number)
}

// Where a message broke off; nothing for any other refusal.
fn broke(block: &mut [u8], at: usize, stop: Stop) -> usize
    ensures { Wrote block.old at block.new result (broke_words stop) }
{
    if stop.number == 4 {
        // as far as 32 bits go: reading gives none over 4,096
        let position = u32::try_from(stop.at).unwrap_or(u32::MAX);
        let placed = texts::add_numbered(block, at, b" at ", position);
        let parted = texts::add(block, placed, b" ");
        return texts::add(block, parted, element(stop.element));
    }
    at
}

// An element's name, from its number; no name for any other number.
#[tactic(auto, unfolding(crate::specs::Words::element_word, crate::specs::Words::element_words, crate::specs::Words::word_in))]
fn element(e: u8) -> &'static [u8]
    ensures { result.now ≡ element_word e }
{
    match e {
        1 => b"ss-type",
        2 => b"pdu-type",
        3 => b"range",
        4 => b"kind",
        5 => b"ssi",
        6 => b"extension",
        7 => b"mask-present",
        8 => b"mask",
        9 => b"result",
        10 => b"reason",
        11 => b"cause",
        12 => b"identifier",
        13 => b"o-bit",
        14 => b"p-bit",
        15 => b"mni",
        16 => b"area",
        17 => b"basic-service",
        18 => b"activation-type",
        19 => b"interception-type",
        20 => b"type-of-restriction",
        _ => b"",
    }
}

#[tactic(auto, unfolding(crate::specs::Words::state_word))]
fn state(k: u8) -> &'static [u8]
    ensures { result.now ≡ state_word k }
{
    match k {
        0 => b"no-record",
        1 => b"other-post",
        2 => b"active",
        _ => b"not-active",
    }
}

fn told(block: &mut [u8], at: usize, k: u8, laid: Laid, area: &[u8]) -> usize
    ensures { Wrote block.old at block.new result (state_words k laid area.now) }
{
    let begun = texts::add(block, at, b"state ");
    let named = texts::add(block, begun, state(k));
    let counted = texts::add_numbered(block, named, b" ", bits_in(laid, 0) as u32);
    sent(block, counted, b" ", laid, area, 0)
}

fn acks(block: &mut [u8], at: usize, laid: Laid, area: &[u8]) -> usize
    ensures { Wrote block.old at block.new result (acks_words laid area.now) }
{
    let counted = texts::add_numbered(block, at, b"acks ", laid.count as u32);
    let mut end = counted;
    for k in 0..3 {
        end = ack_bits(block, end, laid, k);
    }
    for k in 0..3 {
        end = ack_hex(block, end, laid, area, k);
    }
    end
}

fn ack_bits(block: &mut [u8], at: usize, laid: Laid, k: u8) -> usize
    ensures { Wrote block.old at block.new result (ack_bits laid k) }
{
    if k < laid.count {
        return texts::add_numbered(block, at, b" ", bits_in(laid, k) as u32);
    }
    at
}

fn ack_hex(block: &mut [u8], at: usize, laid: Laid, area: &[u8], k: u8) -> usize
    ensures { Wrote block.old at block.new result (ack_hex laid area.now k) }
{
    if k < laid.count {
        return sent(block, at, b" ", laid, area, k);
    }
    at
}

fn admitted(block: &mut [u8], at: usize, post: u8, place: u8, laid: Laid, area: &[u8]) -> usize
    ensures { Wrote block.old at block.new result (admitted_words post place laid area.now) }
{
    let named = texts::add_numbered(block, at, b"admitted ", post as u32);
    let placed = texts::add_numbered(block, named, b" ", place as u32);
    let first = sent(block, placed, b" ", laid, area, 0);
    sent(block, first, b" ", laid, area, 1)
}

// A word, the post and the first message.
fn posted(block: &mut [u8], at: usize, word: &[u8], post: u8, laid: Laid, area: &[u8]) -> usize
    ensures { Wrote block.old at block.new result (word.now ++ post_words post laid area.now) }
{
    let named = texts::add_numbered(block, at, word, post as u32);
    sent(block, named, b" ", laid, area, 0)
}

// A word, and message k of those that were laid.
fn sent(block: &mut [u8], at: usize, word: &[u8], laid: Laid, area: &[u8], k: u8) -> usize
    ensures { Wrote block.old at block.new result (word.now ++ message_hex area.now k (bits_in laid k)) }
{
    let named = texts::add(block, at, word);
    texts::add_message(block, named, area, k, bits_in(laid, k))
}

// Its length in bits; 0 for one past the third.
#[tactic(auto, unfolding(crate::specs::Words::bits_in))]
fn bits_in(laid: Laid, k: u8) -> u16
    ensures { result ≡ bits_in laid k }
{
    laid.lengths.get(k as usize).copied().unwrap_or(0)
}

// ---- a dump's parts

pub(crate) fn place_part(block: &mut [u8], at: usize, i: u8, place: Place) -> usize
    ensures { Wrote block.old at block.new result (place_words i place) }
{
    if place.used {
        let numbered = texts::add_numbered(block, at, b" ", i as u32);
        let named = texts::add_field(block, numbered, place.identifier as u32);
        let posted = texts::add_field(block, named, place.post as u32);
        let asked = second_part(block, posted, place.more, place.second);
        return cause_part(block, asked, place.cause);
    }
    at
}

fn second_part(block: &mut [u8], at: usize, more: bool, second: u8) -> usize
    ensures { Wrote block.old at block.new result (second_words more second) }
{
    if more {
        return texts::add_numbered(block, at, b">", second as u32);
    }
    at
}

fn cause_part(block: &mut [u8], at: usize, cause: u8) -> usize
    ensures { Wrote block.old at block.new result (cause_words cause) }
{
    if cause == 0 {
        return at;
    }
    texts::add_numbered(block, at, b"!", cause as u32)
}

pub(crate) fn record_part(block: &mut [u8], at: usize, i: u8, row: Record) -> usize
    ensures { Wrote block.old at block.new result (record_words i row) }
{
    if row.in_use {
        let numbered = texts::add_numbered(block, at, b" ", i as u32);
        let named = texts::add_field(block, numbered, row.ssi);
        let extended = texts::add_field(block, named, row.extension);
        let posted = texts::add_field(block, extended, row.post as u32);
        return texts::add_field(block, posted, u32::from(row.active));
    }
    at
}
