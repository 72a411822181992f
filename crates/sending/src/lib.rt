// The messages that one call of the desk writes, each 100 bytes after the one before, and the ACKs of a request among them.
//
// Every function is total. `send` writes the next message, where there is room for it; the laws say that of what the desk sends nothing
// is ever left out, and that the area is then the one that document 01 describes (`lay_all`).
#![tactic(auto)]

ghost use Rattle.std.specs.Prelude.{◌≡◌, false, ◌<◌, ◌≤◌, get_or};
ghost use Rattle.sending.specs.Sending.{no_laid, laid_more, send_laid, send_area, all_laid, all_area};
ghost use Rattle.sending.specs.Acks.{result_of, reason_of, several_in, ack_v, ack_of, ack_if, acks_of};

use message::{Group, Value};
use profile::{Air, Profile};
use records::Sorted;

// How many messages were written, and their lengths in bits. An array and a count, of fixed memory: the host and definitions of host, words
// and history name both fields.
#[derive(Clone, Copy)]
pub struct Laid {
    pub count: u8,
    pub lengths: [u16; 3],
}

pub fn no_laid() -> Laid
    ensures { result ≡ no_laid }
{
    Laid {
        count: 0,
        lengths: [0; 3],
    }
}

// The next message of a call.
pub fn send(profile: Profile, laid: Laid, value: Value, out: &mut [u8]) -> Laid
    ensures { (result ≡ send_laid profile laid out.old value)
        × (out.new ≡ send_area profile laid out.old value) }
{
    if laid.count < 3 {
        if let Ok(bits) = writing::write_at(profile, value, out, 100 * (laid.count as u16)) {
            return more(laid, bits);
        }
    }
    laid
}

// The ACKs of a request: the type that answers it, and its users, sorted by outcome.
pub fn send_acks(profile: Profile, ack: u8, users: Group, sorted: Sorted, out: &mut [u8]) -> Laid
    ensures { (result ≡ all_laid profile no_laid out.old (acks_of profile.air ack users sorted))
        × (out.new ≡ all_area profile no_laid out.old (acks_of profile.air ack users sorted)) }
{
    let mut laid = no_laid();
    for class in 0..3 {
        laid = send_ack(profile, ack, users, sorted, class, laid, out);
    }
    laid
}

fn more(laid: Laid, bits: usize) -> Laid
    requires { (laid.count < 3) × (bits < 65536) }
    ensures { result ≡ laid_more laid bits }
{
    let mut lengths = laid.lengths;
    lengths[usize::from(laid.count)] = bits as u16;
    Laid {
        count: laid.count + 1,
        lengths,
    }
}

// The ACK of one outcome, if an identity has it. An outcome is a number, 0 to 2, since it is the place in both arrays of `Sorted`.
fn send_ack(
    profile: Profile,
    ack: u8,
    users: Group,
    sorted: Sorted,
    class: u8,
    laid: Laid,
    out: &mut [u8],
) -> Laid
    ensures { (result ≡ all_laid profile laid out.old (ack_if profile.air ack users sorted class))
        × (out.new ≡ all_area profile laid out.old (ack_if profile.air ack users sorted class)) }
{
    if is_there(sorted.some, class) {
        return send(
            profile,
            laid,
            ack_of(profile.air, ack, users, sorted, class),
            out,
        );
    }
    laid
}

fn ack_of(air: Air, ack: u8, users: Group, sorted: Sorted, class: u8) -> Value
    ensures { result ≡ ack_of air ack users sorted class }
{
    let masked = is_several(sorted.some);
    let mask = if masked {
        mask_at(sorted.mask, class)
    } else {
        0
    };
    ack_with(
        ack,
        users,
        masked,
        mask,
        result_of(class),
        reason_of(air, class),
    )
}

fn ack_with(ack: u8, users: Group, masked: bool, mask: u64, res: u8, reason: u8) -> Value
    ensures { result ≡ ack_v ack users masked mask res reason }
{
    let request = message::with_users(message::blank(ack), users);
    message::with_result(
        message::with_mask(request, masked, mask),
        u32::from(res),
        u32::from(reason),
    )
}

#[tactic(auto, unfolding(crate::specs::Acks::several_in))]
fn is_several(some: [bool; 3]) -> bool
    ensures { result ≡ several_in some }
{
    some.iter().filter(|there| **there).count() > 1
}

// This and `mask_at` are a line each, so two stay.
fn is_there(some: [bool; 3], class: u8) -> bool
    ensures { result ≡ get_or some class false }
{
    some.get(usize::from(class)).copied().unwrap_or(false)
}

fn mask_at(mask: [u64; 3], class: u8) -> u64
    ensures { result ≡ get_or mask class 0 }
{
    mask.get(usize::from(class)).copied().unwrap_or(0)
}

#[tactic(auto, unfolding(crate::specs::Acks::result_of))]
fn result_of(class: u8) -> u8
    ensures { result ≡ result_of class }
{
    u8::from(class == 0)
}

// U or N for a failure; an acceptance has no reason.
#[tactic(auto, unfolding(crate::specs::Acks::reason_of))]
fn reason_of(air: Air, class: u8) -> u8
    ensures { result ≡ reason_of air class }
{
    match class {
        0 => 0,
        1 => air.unknown,
        _ => air.other,
    }
}
