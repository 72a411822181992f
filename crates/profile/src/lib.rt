// The profile of one network: what is given at opening (document 01, "Profile"). It has two parts: what goes by the air (SS type, home
// extension, range values, failure reasons), which is fixed from then on, and the posts' shares of the places, which a running desk may
// change for the same posts (document 02, vi).
//
// `Profile::new` gives the profile, or refusal 1 exactly if a rule is broken; `profile_ok` is the same test for a profile that is
// handed in, since its fields are public and every call checks again. `SAMPLE` is document 01's sample profile, which passes.
#![tactic(auto)]

ghost use Rattle.std.specs.Prelude.{◌≡◌, ◌≤◌, length, sum_by, position};
ghost use Rattle.std.specs.List.{list_all};
ghost use Rattle.profile.specs.Counting.{every, sum};
ghost use Rattle.profile.specs.Rules.{list_ok, meaning_ok, meaning_in, meaning_of, air_ok, is_one, list_of_one, share_ok, share_in, shares_ok, profile_ok, new_of};
ghost use Rattle.profile.specs.Sample.{sample};
ghost use Rattle.profile.specs.declared.Share.{Share};

use codec::Stop;

// How many identities follow a range value. (An array holds the first variant past its end.)
#[derive(Clone, Copy)]
pub enum Kind {
    Reserved,
    Nobody,
    Listed,
    FirstLast,
}

// What a range value means; `count` is the length of a list. Beside another kind any `count` may be handed in (`meaning_ok`): an enum with
// the length in `Listed` would take less.
#[derive(Clone, Copy)]
pub struct Meaning {
    pub kind: Kind,
    pub count: u8,
}

// `unknown` is U, the failure of an identity with no record; `other` is N, of another post's user. `unrecorded` and `elsewhere` are
// what INTERROGATE ACK gives as its reason for the same two.
#[derive(Clone, Copy)]
pub struct Air {
    pub ss: u8,
    pub home: u32,
    pub meanings: [Meaning; 16],
    pub unknown: u8,
    pub other: u8,
    pub unrecorded: u8,
    pub elsewhere: u8,
}

// A post's share of the places: so many are reserved for it, and it may hold no more than its ceiling.
#[derive(Clone, Copy)]
pub struct Share {
    pub reserved: u8,
    pub ceiling: u8,
}

// Rows from `posts` on belong to no post and are never looked at. (A count beside an array, as a host lends it: there is no heap.)
#[derive(Clone, Copy)]
pub struct Shares {
    pub posts: u8,
    pub share: [Share; 8],
}

#[derive(Clone, Copy)]
pub struct Profile {
    pub air: Air,
    pub shares: Shares,
}

impl Air {
    // The range values of four bits.
    pub const RANGES: usize = 16;
}

impl Shares {
    pub const POSTS: usize = 8;

    // The waiting calls that a desk has room for.
    pub const PLACES: usize = 32;
}

const RESERVED: Meaning = Meaning {
    kind: Kind::Reserved,
    count: 0,
};

const NO_SHARE: Share = Share {
    reserved: 0,
    ceiling: 0,
};

// The sample profile's sixteen meanings and list lengths.
const SAMPLE_MEANINGS: [Meaning; 16] = [
    Meaning {
        kind: Kind::Nobody,
        count: 0,
    },
    Meaning {
        kind: Kind::Listed,
        count: 1,
    },
    Meaning {
        kind: Kind::Listed,
        count: 2,
    },
    Meaning {
        kind: Kind::Listed,
        count: 3,
    },
    RESERVED,
    RESERVED,
    RESERVED,
    RESERVED,
    RESERVED,
    RESERVED,
    RESERVED,
    RESERVED,
    RESERVED,
    RESERVED,
    RESERVED,
    Meaning {
        kind: Kind::FirstLast,
        count: 0,
    },
];

// Its two posts.
const SAMPLE_SHARE: [Share; 8] = [
    Share {
        reserved: 2,
        ceiling: 30,
    },
    Share {
        reserved: 4,
        ceiling: 8,
    },
    NO_SHARE,
    NO_SHARE,
    NO_SHARE,
    NO_SHARE,
    NO_SHARE,
    NO_SHARE,
];

pub const SAMPLE: Profile = Profile {
    air: Air {
        ss: 9,
        home: 0,
        meanings: SAMPLE_MEANINGS,
        unknown: 1,
        other: 2,
        unrecorded: 1,
        elsewhere: 2,
    },
    shares: Shares {
        posts: 2,
        share: SAMPLE_SHARE,
    },
};

impl Profile {
    // The user records that a host may lend at most.
    pub const RECORDS: usize = 128;

    // The profile of these two parts, or refusal 1.
    #[tactic(auto, unfolding(crate::specs::Rules::new_of))]
    pub fn new(air: Air, shares: Shares) -> Result<Profile, Stop>
        ensures { result ≡ new_of air shares }
    {
        let profile = Profile { air, shares };
        if profile_ok(profile) {
            Ok(profile)
        } else {
            Err(codec::refuse(1))
        }
    }
}

// A profile keeps every rule.
#[tactic(auto, unfolding(crate::specs::Rules::profile_ok, codec::specs::Codec::both))]
pub fn profile_ok(profile: Profile) -> bool
    ensures { result ≡ profile_ok profile }
{
    air_ok(profile.air) && shares_ok(profile.shares)
}

// Document 01's sample profile.
pub fn sample_profile() -> Profile
    ensures { result ≡ sample }
{
    SAMPLE
}

// What a range value means; one over 15 is reserved.
#[tactic(auto, unfolding(crate::specs::Rules::meaning_in))]
pub fn meaning_of(meanings: [Meaning; 16], range: u8) -> Meaning
    ensures { result ≡ meaning_in meanings range }
{
    meanings.get(range as usize).copied().unwrap_or(RESERVED)
}

// The lowest range value that means a list of one; 16 where none does. (16 and no Option: `list_of_one` of specs/ is a number, and `has_one`
// and `one_user` of desk take it so.)
pub fn list_of_one(meanings: [Meaning; 16]) -> u8
    ensures { result ≡ list_of_one meanings }
{
    first_of_one(meanings).unwrap_or(Air::RANGES) as u8
}

fn first_of_one(meanings: [Meaning; 16]) -> Option<usize>
    ensures { result ≡ position is_one meanings }
{
    meanings.iter().position(|m| is_one(*m))
}

#[tactic(auto, unfolding(crate::specs::Rules::is_one))]
fn is_one(m: Meaning) -> bool
    ensures { result ≡ is_one m }
{
    matches!(m.kind, Kind::Listed) && m.count == 1
}

// The meaning by its number: 0 reserved, 16 nobody, 17 first and last, any other a list of that many.
#[tactic(auto, unfolding(crate::specs::Rules::meaning_of))]
pub fn meaning_from(n: u8) -> Meaning
    ensures { result ≡ meaning_of n }
{
    match n {
        0 => RESERVED,
        16 => Meaning {
            kind: Kind::Nobody,
            count: 0,
        },
        17 => Meaning {
            kind: Kind::FirstLast,
            count: 0,
        },
        _ => Meaning {
            kind: Kind::Listed,
            count: n,
        },
    }
}

#[tactic(auto, using(crate::proofs::ProfileLaws::all_meanings), unfolding(crate::specs::Rules::air_ok, codec::specs::Codec::both))]
fn air_ok(air: Air) -> bool
    ensures { result ≡ air_ok air }
{
    air.ss <= 63
        && air.home <= 0xFF_FFFF
        && air.unknown <= 127
        && air.other <= 127
        && air.unrecorded <= 7
        && air.elsewhere <= 7
        && meanings_ok(air.meanings)
}

fn meanings_ok(meanings: [Meaning; 16]) -> bool
    ensures { result ≡ list_all meaning_ok meanings }
{
    meanings.iter().all(|m| meaning_ok(*m))
}

#[tactic(auto, unfolding(crate::specs::Rules::meaning_ok))]
fn meaning_ok(m: Meaning) -> bool
    ensures { result ≡ meaning_ok m }
{
    !matches!(m.kind, Kind::Listed) || list_ok(m.count)
}

// A list has 1 to 15 addresses.
#[tactic(auto, unfolding(codec::specs::Codec::both))]
pub fn list_ok(n: u8) -> bool
    ensures { result ≡ list_ok n }
{
    (1..=15).contains(&n)
}

// The shares keep every rule: 1 to 8 posts, each with a ceiling of 1 to 32 and no more reserved, and all that is reserved in 32 places.
#[tactic(auto, using(crate::proofs::ProfileLaws::all_shares, crate::proofs::ProfileLaws::all_reserved), unfolding(crate::specs::Rules::shares_ok, codec::specs::Codec::both))]
pub fn shares_ok(shares: Shares) -> bool
    ensures { result ≡ shares_ok shares }
{
    let posts = shares.posts as usize;
    1 <= posts
        && posts <= Shares::POSTS
        && each_ok(&shares.share[..posts])
        && all_reserved(&shares.share[..posts]) <= Shares::PLACES
}

fn each_ok(rows: &[Share]) -> bool
    ensures { result ≡ list_all share_ok rows.now }
{
    rows.iter().all(|s| share_ok(*s))
}

#[tactic(auto, unfolding(crate::specs::Rules::share_ok, codec::specs::Codec::both))]
fn share_ok(s: Share) -> bool
    ensures { result ≡ share_ok s }
{
    1 <= s.ceiling && s.ceiling as usize <= Shares::PLACES && s.reserved <= s.ceiling
}

// The sum of all reserved numbers, of which each is at most 32.
fn all_reserved(rows: &[Share]) -> usize
    requires { length rows.now ≤ 8 }
    ensures { result ≡ sum_by (λ (s : Share). s.reserved) rows.now }
{
    rows.iter().map(|s| s.reserved as usize).sum()
}
