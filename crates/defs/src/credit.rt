// Credit: how much the peer has room for, and when it must be told of ours.
#![tactic(auto, using(crate::proofs::CreditLaws::stops_at_0), unfolding(crate::specs::Credit::peer_needs_credit_update))]

ghost use Rattle.std.specs.Prelude.{◌≡◌};
ghost use Rattle.defs.specs.Credit.{peer_avail_credit, peer_needs_credit_update};

// Virtio 1.2, 5.10.6.3: the peer's allocation less what was sent and not yet forwarded there. A peer may shrink its
// allocation below that: it has no room then.
pub fn peer_avail_credit(alloc: u32, sent: u32, fwd: u32) -> u32
    ensures { result ≡ peer_avail_credit alloc sent fwd }
{
    alloc.saturating_sub(sent.wrapping_sub(fwd))
}

// 01, `send_pkt`: as the peer sees it, less than the threshold is free in our ring.
pub fn peer_needs_credit_update(size: u32, threshold: u32, fwd: u32, told: u32) -> bool
    ensures { result ≡ peer_needs_credit_update size threshold fwd told }
{
    size.wrapping_sub(fwd.wrapping_sub(told)) < threshold
}
