// New shares.
ghost use Rattle.std.specs.Prelude.{◌≡◌};
ghost use Rattle.desk.specs.Changes.{new_shares, settled_change, change_of};

use crate::{Desk, desk_ok};
use codec::Stop;
use profile::{Profile, Share, Shares};

// The desk has these shares from now on, and all else as it stands; or 1, 23 or 24.
pub(crate) fn shared(desk: Desk, rows: [Share; 8]) -> Result<Desk, Stop>
    ensures { settled_change desk result ≡ change_of desk rows }
{
    let new = new_shares(desk.profile.shares.posts, rows);
    let sound = desk_ok(desk);
    let lawful = profile::shares_ok(new);
    let fitting = places::fits(new, desk.places);
    if !sound {
        return Err(codec::refuse(1));
    }
    if !lawful {
        return Err(codec::refuse(23));
    }
    if !fitting {
        return Err(codec::refuse(24));
    }
    Ok(Desk {
        profile: Profile {
            shares: new,
            ..desk.profile
        },
        ..desk
    })
}

// These rows for so many posts; past them all rows are zero.
fn new_shares(posts: u8, rows: [Share; 8]) -> Shares
    ensures { result ≡ new_shares posts rows }
{
    let none = Share {
        reserved: 0,
        ceiling: 0,
    };
    let mut share = [none; 8];
    let given = (posts as usize).min(8);
    share[..given].copy_from_slice(&rows[..given]);
    Shares { posts, share }
}
