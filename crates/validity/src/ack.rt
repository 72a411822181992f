// What an ACK has after its users: the mask, the result, the reason; of INTERROGATE ACK the state.
ghost use Rattle.std.specs.Prelude.{◌≡◌, ◌≤◌};
ghost use Rattle.message.specs.Acks.{mask_c, masked_c, result_c, state_c};
ghost use Rattle.validity.specs.Parts.{accepted_ok, not_accepted_ok};

use message::State;

// A mask for `count` identities, or none and then zero.
pub(crate) fn masked_ok(count: usize, masked: bool, mask: u64) -> bool
    requires { count ≤ 64 }
    ensures { result ≡ (masked_c count).ok (masked, mask) }
{
    if masked {
        mask_ok(count, mask)
    } else {
        mask == 0
    }
}

// No bit stands beyond the count: the identities have the top bits.
fn mask_ok(count: usize, mask: u64) -> bool
    requires { count ≤ 64 }
    ensures { result ≡ (mask_c count).ok mask }
{
    if count == 0 {
        return mask == 0;
    }
    let spare = 64 - count;
    mask >> spare << spare == mask
}

// Result 1 has no reason, and it is zero; result 0 has one.
pub(crate) fn result_ok(res: u32, reason: u32) -> bool
    ensures { result ≡ result_c.ok (res, reason) }
{
    match res {
        0 => reason < 128,
        1 => reason == 0,
        _ => false,
    }
}

pub(crate) fn state_ok(s: State) -> bool
    ensures { result ≡ state_c.ok s }
{
    match s.result {
        0 => not_accepted_ok(s),
        1 => accepted_ok(s),
        _ => false,
    }
}

// No reason.
#[tactic(auto, unfolding(crate::specs::Parts::accepted_ok, codec::specs::Codec::both))]
fn accepted_ok(s: State) -> bool
    ensures { result ≡ accepted_ok s }
{
    s.reason == 0 && s.activation <= 1 && s.interception <= 1 && s.called <= 3 && s.calling <= 3
}

// A reason alone.
#[tactic(auto, unfolding(crate::specs::Parts::not_accepted_ok, codec::specs::Codec::both))]
fn not_accepted_ok(s: State) -> bool
    ensures { result ≡ not_accepted_ok s }
{
    s.reason <= 7 && s.activation == 0 && s.interception == 0 && s.called == 0 && s.calling == 0
}
