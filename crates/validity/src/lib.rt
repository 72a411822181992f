// Which values are valid (document 01, "Bits on the air", its last paragraph): the numbers fit, ranges and addresses would pass 9 to 11,
// and all that the message doesn't carry is zero. The definition is the `ok` of `message`'s codec, which its round trips are about.
//
// `valid` equals `valid_of` for every profile and value, also for a profile that breaks a rule: refusing that is the caller's. The files
// go from small to large: address, group, area and ack, part, body.
#![tactic(auto)]

ghost use Rattle.std.specs.Prelude.{◌≡◌};
ghost use Rattle.message.specs.Messages.{header_c};
ghost use Rattle.validity.specs.Validity.{valid_of};

use message::Value;
use profile::Profile;

mod ack;
mod address;
mod area;
mod body;
mod group;
mod part;

// True exactly if the value is a valid one under the profile's ranges (document 01, "Bits on the air").
pub fn valid(profile: Profile, value: Value) -> bool
    ensures { result ≡ valid_of profile.air value }
{
    header_ok(profile.air.ss, value.pdu) && body::body_ok(profile.air, value.pdu, value)
}

// Both numbers of the header fit, and the type is carried.
fn header_ok(ss: u8, pdu: u8) -> bool
    ensures { result ≡ (header_c ss).ok (ss, pdu) }
{
    ss < 64 && message::is_carried(pdu)
}
