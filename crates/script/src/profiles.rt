// The profile of a `profile` line and the rows of a `shares` line, from the line's row of numbers.
ghost use Rattle.std.specs.Prelude.{◌≡◌, ◌≤◌};
ghost use Rattle.profile.specs.Rules.{no_profile};
ghost use Rattle.script.specs.Profiles.{byte_of, meaning_by, meanings_of, has_reasons, reason_of, air_of, share_of, shares_at, shares_of, posts_of, profile_of, pairs_in, is_profile, is_pairs, rows_of};

use profile::{Air, Kind, Meaning, Profile, Share, Shares};

// How many pairs there are after 21 numbers, 1 to 9; 0 where they are no profile's. (0 and no Option, as `pairs_in` of specs/.)
#[tactic(auto, unfolding(crate::specs::Profiles::pairs_in))]
pub(crate) fn pairs_in(count: usize) -> u8
    ensures { result ≡ pairs_in count }
{
    if count < 23 || count > 39 || count % 2 == 0 {
        return 0;
    }
    ((count - 21) / 2) as u8
}

// 1 to 8 pairs, or 9 with eight posts.
#[tactic(auto, unfolding(crate::specs::Profiles::is_profile))]
pub(crate) fn is_profile(said: u32, pairs: u8) -> bool
    ensures { result ≡ is_profile said pairs }
{
    pairs >= 1 && (pairs <= 8 || said == 8)
}

// 1 to 8 pairs.
#[tactic(auto, unfolding(crate::specs::Profiles::is_pairs))]
pub(crate) fn is_pairs(count: usize) -> bool
    ensures { result ≡ is_pairs count }
{
    count >= 2 && count <= 16 && count % 2 == 0
}

// The rows of new shares; a missing pair is 0 0, as the row is beyond its count. All else of the profile is zero.
#[tactic(auto, unfolding(crate::specs::Profiles::rows_of))]
pub(crate) fn rows_of(number: [u32; 40]) -> Profile
    ensures { result ≡ rows_of number }
{
    Profile {
        air: no_profile().air,
        shares: shares_at(number, 0, 0),
    }
}

#[tactic(auto, unfolding(crate::specs::Profiles::profile_of))]
pub(crate) fn profile_of(number: [u32; 40], pairs: u8) -> Profile
    ensures { result ≡ profile_of number pairs }
{
    Profile {
        air: air_of(number, pairs),
        shares: shares_of(number, pairs),
    }
}

// All zero, as `no_profile` of profile's specs/: it stands in a line that brings no profile.
#[tactic(auto, unfolding(profile::specs::Rules::no_profile))]
pub(crate) fn no_profile() -> Profile
    ensures { result ≡ no_profile }
{
    Profile {
        air: Air {
            ss: 0,
            home: 0,
            meanings: [Meaning {
                kind: Kind::Reserved,
                count: 0,
            }; 16],
            unknown: 0,
            other: 0,
            unrecorded: 0,
            elsewhere: 0,
        },
        shares: Shares {
            posts: 0,
            share: [Share {
                reserved: 0,
                ceiling: 0,
            }; 8],
        },
    }
}

#[tactic(auto, unfolding(crate::specs::Profiles::air_of))]
fn air_of(number: [u32; 40], pairs: u8) -> Air
    ensures { result ≡ air_of number pairs }
{
    let more = has_reasons(number[20], pairs);
    let at = 19 + 2 * pairs as usize;
    Air {
        ss: byte_of(number[0]),
        home: number[1],
        meanings: meanings_of(number),
        unknown: byte_of(number[2]),
        other: byte_of(number[3]),
        unrecorded: reason_of(number, more, at, 1),
        elsewhere: reason_of(number, more, at + 1, 2),
    }
}

// The pairs are one more than the line's posts.
#[tactic(auto, unfolding(crate::specs::Profiles::has_reasons))]
fn has_reasons(said: u32, pairs: u8) -> bool
    ensures { result ≡ has_reasons said pairs }
{
    said as u64 + 1 == pairs as u64
}

// The reason at a number of the row, if it is there.
#[tactic(auto, unfolding(crate::specs::Profiles::reason_of))]
fn reason_of(number: [u32; 40], more: bool, at: usize, otherwise: u8) -> u8
    ensures { result ≡ reason_of number more at otherwise }
{
    if more {
        return byte_of(number.get(at).copied().unwrap_or(0));
    }
    otherwise
}

fn meanings_of(number: [u32; 40]) -> [Meaning; 16]
    ensures { result ≡ meanings_of number }
{
    let mut meanings = [Meaning {
        kind: Kind::Reserved,
        count: 0,
    }; 16];
    for i in 0..16 {
        meanings[i] = meaning_of(number[4 + i]);
    }
    meanings
}

#[tactic(auto, unfolding(crate::specs::Profiles::meaning_by))]
fn meaning_of(n: u32) -> Meaning
    ensures { result ≡ meaning_by n }
{
    profile::meaning_from(byte_of(n))
}

// Over 255 it is 255.
#[tactic(auto, unfolding(crate::specs::Profiles::byte_of))]
fn byte_of(n: u32) -> u8
    ensures { result ≡ byte_of n }
{
    n.min(255) as u8
}

#[tactic(auto, unfolding(crate::specs::Profiles::shares_of))]
fn shares_of(number: [u32; 40], pairs: u8) -> Shares
    ensures { result ≡ shares_of number pairs }
{
    shares_at(number, 21, posts_of(number[20], pairs))
}

// Eight pairs from a number of the row on, for so many posts.
fn shares_at(number: [u32; 40], at: usize, posts: u8) -> Shares
    requires { at ≤ 22 }
    ensures { result ≡ shares_at number at posts }
{
    let mut share = [Share {
        reserved: 0,
        ceiling: 0,
    }; 8];
    for i in 0..8 {
        share[i] = share_of(number[at + 2 * i], number[at + 2 * i + 1]);
    }
    Shares { posts, share }
}

#[tactic(auto, unfolding(crate::specs::Profiles::share_of))]
fn share_of(reserved: u32, ceiling: u32) -> Share
    ensures { result ≡ share_of reserved ceiling }
{
    Share {
        reserved: byte_of(reserved),
        ceiling: byte_of(ceiling),
    }
}

#[tactic(auto, unfolding(crate::specs::Profiles::posts_of))]
fn posts_of(said: u32, pairs: u8) -> u8
    ensures { result ≡ posts_of said pairs }
{
    if said == pairs as u32 {
        return pairs;
    }
    if has_reasons(said, pairs) {
        return byte_of(said);
    }
    0
}
