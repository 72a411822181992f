// Held, free and owed, counted from the places.
ghost use Rattle.std.specs.Prelude.{◌≡◌, ℕ, ◌<◌};
ghost use Rattle.profile.specs.Counting.{sum};
ghost use Rattle.profile.specs.Rules.{share_in};
ghost use Rattle.places.specs.Held.{waits_at, held_of, used_of, free_of, owed_of, owed_all, owed_others, load_of};
ghost use Rattle.places.specs.Fits.{claim_of, claims_of};

use crate::Place;
use profile::{Share, Shares};

#[tactic(auto, unfolding(crate::specs::Held::waits_at, codec::specs::Codec::both))]
fn waits_at(p: Place, post: u8) -> bool
    ensures { result ≡ waits_at p post }
{
    p.used && p.post == post
}

// The post's number of waiting calls.
pub(crate) fn held(list: [Place; 32], post: u8) -> u8
    ensures { result ≡ held_of list post }
{
    let mut count = 0;
    for i in 0..Shares::PLACES {
        count += u8::from(waits_at(list[i], post));
    }
    count
}

// The waiting calls of all posts.
fn used(list: [Place; 32]) -> u8
    ensures { result ≡ used_of list }
{
    let mut count = 0;
    for at in 0..Shares::PLACES {
        let p = list[at];
        count += u8::from(p.used);
    }
    count
}

pub(crate) fn free(list: [Place; 32]) -> usize
    ensures { result ≡ free_of list }
{
    Shares::PLACES - used(list) as usize
}

// The post's row; past the eight there is none.
#[tactic(auto, unfolding(profile::specs::Rules::share_in))]
pub(crate) fn share_of(rows: [Share; 8], post: u8) -> Share
    ensures { result ≡ share_in rows post }
{
    rows.get(post as usize).copied().unwrap_or(Share {
        reserved: 0,
        ceiling: 0,
    })
}

// What is owed to the post.
#[tactic(auto, unfolding(crate::specs::Held::owed_of))]
fn owed(shares: Shares, list: [Place; 32], post: u8) -> u8
    ensures { result ≡ owed_of shares list post }
{
    share_of(shares.share, post)
        .reserved
        .saturating_sub(held(list, post))
}

// The sum over the posts of what there is for each.
fn over_posts<F: Fn(u8) -> u8>(posts: u8, part: F) -> u16
    requires { F.IsAlwaysCallable part }
    ensures { (amount : ℕ → ℕ) → ((q n : ℕ) → q < posts → F.post part q n → n ≡ amount q) → result ≡ sum posts amount }
{
    let mut total: u16 = 0;
    for q in 0..posts {
        total += u16::from(part(q));
    }
    total
}

// The sum owed to all posts.
fn owed_all(shares: Shares, list: [Place; 32]) -> u16
    ensures { result ≡ owed_all shares list }
{
    over_posts(shares.posts, |q| owed(shares, list, q))
}

// The sum owed to all other posts.
pub(crate) fn owed_others(shares: Shares, list: [Place; 32], post: u8) -> u16
    ensures { result ≡ owed_others shares list post }
{
    over_posts(
        shares.posts,
        |q| if q == post { 0 } else { owed(shares, list, q) },
    )
}

// All held plus all owed.
#[tactic(auto, unfolding(crate::specs::Held::load_of))]
pub(crate) fn load(shares: Shares, list: [Place; 32]) -> usize
    ensures { result ≡ load_of shares list }
{
    used(list) as usize + owed_all(shares, list) as usize
}

// What the post has a claim to: the larger of its reserved number and its held.
#[tactic(auto, unfolding(crate::specs::Fits::claim_of))]
fn claim(shares: Shares, list: [Place; 32], post: u8) -> u8
    ensures { result ≡ claim_of shares list post }
{
    share_of(shares.share, post).reserved.max(held(list, post))
}

// The claims of all posts.
pub(crate) fn claims(shares: Shares, list: [Place; 32]) -> u16
    ensures { result ≡ claims_of shares list }
{
    over_posts(shares.posts, |q| claim(shares, list, q))
}
