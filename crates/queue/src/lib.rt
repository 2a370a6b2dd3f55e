// What both queues are, once over any item: the record, the list that it means, and what each call
// leaves. What a queue does beside that stands in its own crate.
#![tactic(auto)]

mod item;
mod queue;

ghost use Rattle.std.specs.Prelude.{◌≡◌, ◌-◌, min};
ghost use Rattle.queue.specs.Queue.{place_after};
ghost use Rattle.queue.specs.Queued.{has_room};

pub use item::Item;
pub use queue::{Popped, Queue, Queued};

// When a queue takes one item more.
pub fn has_room(synced: bool, len: usize, limit: usize) -> bool
    ensures { result ≡ has_room synced len limit }
{
    synced & (len < limit)
}

// The place `n` on from the front. A queue runs round at its limit, not at the array's end. No sum
// goes past the limit, so that none can overflow.
pub fn place_after(front: usize, n: usize, limit: usize) -> usize
    ensures { result ≡ place_after front n limit }
{
    let ahead = ahead_of(front, limit);
    if n < ahead {
        return front + n;
    }
    n - ahead
}

// How many places lie from the front to the limit.
fn ahead_of(front: usize, limit: usize) -> usize
    ensures { result ≡ limit - front }
{
    limit.saturating_sub(front)
}

// No call is left, but what it promises may not change, nor its edit.
pub fn lesser(a: usize, b: usize) -> usize
    ensures { result ≡ min a b }
{
    a.min(b)
}
