// A profile from its 41 bytes.
ghost use Rattle.std.specs.Prelude.{◌≡◌, ◌+◌, ◌*◌, ◌<◌, ◌≤◌, leb, length, take, drop, nat_le, slice_index};
ghost use Rattle.codec.specs.Codec.{both};
ghost use Rattle.profile.specs.Counting.{every, sum};
ghost use Rattle.profile.specs.Rules.{air_ok, share_ok, share_in, shares_ok};
ghost use Rattle.layouts.specs.Bytes.{rows_from, are_zero};
ghost use Rattle.layouts.specs.Profiles.{share_from, air_from, shares_from, profile_from, spare_zero, is_profile, passes};

use crate::number;
use profile::{Air, Kind, Meaning, Profile, Share, Shares};

// What the arrays below are filled with first; `profile` has the same two for itself alone.
const RESERVED: Meaning = Meaning {
    kind: Kind::Reserved,
    count: 0,
};

const NO_SHARE: Share = Share {
    reserved: 0,
    ceiling: 0,
};

// The bytes are a profile's, and it keeps every rule. They are looked at where they lie. The length is tested here once, and stands in each
// contract below: what C lends is a slice of any length. By an `if`: behind the join of a longer `&&` the length is not known (tried).
pub(crate) fn passes(l: &[u8]) -> bool
    ensures { result ≡ passes l.now }
{
    if l.len() == 41 {
        return air_passes(l) && shares_pass(l);
    }
    false
}

// Two returns: a chain of `&&` leaves goals over its join, where the law on an air that is kept does not fit.
fn air_passes(l: &[u8]) -> bool
    requires { length l.now ≡ 41 }
    ensures { result ≡ air_ok (air_from l.now) }
{
    if l[0] > 63 {
        return false;
    }
    if number::three_at(l, 1) > 0xFF_FFFF {
        return false;
    }
    reasons_pass(l)
}

// The reasons, U and N and INTERROGATE ACK's two; then the meanings.
#[tactic(auto, unfolding(codec::specs::Codec::both))]
fn reasons_pass(l: &[u8]) -> bool
    requires { length l.now ≡ 41 }
    ensures { result ≡ both (nat_le (slice_index l.now 4) 127) (both (nat_le (slice_index l.now 5) 127)
        (both (nat_le (slice_index l.now 39) 7) (both (nat_le (slice_index l.now 40) 7)
        (every 16 (λ r. leb (slice_index l.now (6 + r)) 17))))) }
{
    l[4] <= 127 && l[5] <= 127 && l[39] <= 7 && l[40] <= 7 && meanings_known(l)
}

// The loop has no other end, so that all sixteen are compared at once.
fn meanings_known(l: &[u8]) -> bool
    requires { length l.now ≡ 41 }
    ensures { result ≡ every 16 (λ r. leb (slice_index l.now (6 + r)) 17) }
{
    let mut known = true;
    for r in 0..Air::RANGES {
        known = known & is_meaning(l[6 + r]);
    }
    known
}

fn is_meaning(byte: u8) -> bool
    ensures { result ≡ nat_le byte 17 }
{
    byte <= 17
}

// A row of ifs: each test has a law of its own, and one `&&` would have all of them behind its joins.
fn shares_pass(l: &[u8]) -> bool
    requires { length l.now ≡ 41 }
    ensures { result ≡ both (spare_zero (take 39 l.now)) (shares_ok (shares_from l.now)) }
{
    let posts = number::byte_at(l, 22) as usize;
    if posts < 1 {
        return false;
    }
    if posts > Shares::POSTS {
        return false;
    }
    rows_pass(l, posts)
}

// The rows past the posts are zero exactly if nothing is left of the total of all rows without the posts' own.
fn rows_pass(l: &[u8], posts: usize) -> bool
    requires { (length l.now ≡ 41) × (posts ≤ 8) }
    ensures { result ≡ both (are_zero (drop (23 + 2 * posts) (take 39 l.now)))
        (both (every posts (λ p. share_ok (share_in (rows_from share_from 2 8 (drop 23 l.now)) p)))
        (nat_le (sum posts (λ p. (share_in (rows_from share_from 2 8 (drop 23 l.now)) p).reserved)) 32)) }
{
    let mut rest = rows_total(l);
    let mut all: u32 = 0;
    for p in 0..posts {
        let reserved = u32::from(l[23 + 2 * p]);
        let ceiling = u32::from(l[24 + 2 * p]);
        if !share_passes(reserved, ceiling) {
            return false;
        }
        all += reserved;
        rest -= reserved + ceiling;
    }
    if rest != 0 {
        return false;
    }
    all as usize <= Shares::PLACES
}

// In a u32, so that all sixteen bytes are added at once.
fn rows_total(l: &[u8]) -> u32
    requires { length l.now ≡ 41 }
    ensures { result ≡ sum 16 (λ k. slice_index l.now (23 + k)) }
{
    let mut total: u32 = 0;
    for k in 0..16 {
        total += u32::from(l[23 + k]);
    }
    total
}

#[tactic(auto, unfolding(profile::specs::Rules::share_ok, codec::specs::Codec::both))]
fn share_passes(reserved: u32, ceiling: u32) -> bool
    ensures { result ≡ share_ok (record { reserved = reserved; ceiling = ceiling }) }
{
    1 <= ceiling && ceiling as usize <= Shares::PLACES && reserved <= ceiling
}

// The length first and by itself: must-fail/programs_2.edit names the line, and the slice of 39 bytes stands on it.
pub(crate) fn is_profile(l: &[u8]) -> bool
    ensures { result ≡ is_profile l.now }
{
    if l.len() != 41 {
        return false;
    }
    if number::are_up_to(l, 6, Air::RANGES, 17) {
        return spare_zero(&l[..39]);
    }
    false
}

// The rows past the posts are zero; these are the bytes up to the last row.
fn spare_zero(l: &[u8]) -> bool
    ensures { result ≡ spare_zero l.now }
{
    let posts = number::byte_at(l, 22) as usize;
    for i in 23 + 2 * posts..l.len() {
        if l[i] != 0 {
            return false;
        }
    }
    true
}

pub(crate) fn profile_from(l: &[u8]) -> Profile
    ensures { result ≡ profile_from l.now }
{
    Profile {
        air: air_from(l),
        shares: shares_from(l),
    }
}

pub(crate) fn air_from(l: &[u8]) -> Air
    ensures { result ≡ air_from l.now }
{
    let mut meanings = [RESERVED; 16];
    for r in 0..Air::RANGES {
        meanings[r] = profile::meaning_from(number::byte_at(l, 6 + r));
    }
    Air {
        ss: number::byte_at(l, 0),
        home: number::three_at(l, 1),
        meanings,
        unknown: number::byte_at(l, 4),
        other: number::byte_at(l, 5),
        unrecorded: number::byte_at(l, 39),
        elsewhere: number::byte_at(l, 40),
    }
}

fn shares_from(l: &[u8]) -> Shares
    ensures { result ≡ shares_from l.now }
{
    let mut share = [NO_SHARE; 8];
    for p in 0..Shares::POSTS {
        share[p] = share_at(l, 23 + 2 * p);
    }
    Shares {
        posts: number::byte_at(l, 22),
        share,
    }
}

fn share_at(l: &[u8], at: usize) -> Share
    requires { at ≤ 4000 }
    ensures { result ≡ share_from (drop at l.now) }
{
    Share {
        reserved: number::byte_at(l, at),
        ceiling: number::byte_at(l, at + 1),
    }
}
