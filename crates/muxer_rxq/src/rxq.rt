// The queue's items, and what the queue does beside what every queue does.
ghost use Rattle.std.specs.Prelude.{◌≡◌};
ghost use Rattle.std.proofs.Common.{rules};
ghost use Rattle.defs.specs.Answer.{told};
ghost use Rattle.queue.specs.Pop.{pop_seen};
ghost use Rattle.muxer_rxq.specs.Item.{zero_item, is_zero, zero_passes, zero_alone};
ghost use Rattle.muxer_rxq.specs.Push.{PushIn, PushSays};
ghost use Rattle.muxer_rxq.specs.Pop.{PopSays};
ghost use Rattle.muxer_rxq.specs.Build.{BuildIn, BuildSays};

use crate::{build, push};
use defs::limits::{self, MAX_RXQ_SIZE};
use queue::{Item, Queue};

// What is queued: an RST, or a connection that has something for the guest.
#[derive(Clone, Copy, Debug, Default, PartialEq, Eq)]
pub struct MuxerRx {
    pub rst: bool,
    pub local_port: u32,
    pub peer_port: u32,
}

impl Item for MuxerRx {
    ghost zero_item = { zero_item };

    ghost is_zero = { is_zero };

    ghost zero_passes = { zero_passes };

    ghost zero_alone = { zero_alone };

    ghost default_is_zero = { Prim.search rules };

    #[tactic(auto, unfolding(crate::specs::Item::is_zero))]
    fn is_zero(self) -> bool {
        self == MuxerRx::default()
    }
}

pub type MuxerRxQ = Queue<MuxerRx, MAX_RXQ_SIZE>;

pub type Queued = queue::Queued<MuxerRx, MAX_RXQ_SIZE>;

pub type Popped = queue::Popped<MuxerRx, MuxerRx, MAX_RXQ_SIZE>;

// What the RX queue has beside `Queue`'s own calls. The kill queue's trait has the same names and
// takes other things.
pub trait RxQueue: Sized {
    // The queue of a table: `used` and `pending` are 0 for no.
    fn from_conn_map(limit: usize, ports: &[u64], used: &[u8], pending: &[u8]) -> Queued;

    // Behind the others; where the queue takes nothing more, an RST takes the place of a connection,
    // and what is turned down loses sync.
    fn push(self, rx: MuxerRx) -> Queued;

    // The front item. Sync is as it was, also where the queue has room again: only a build
    // restores it.
    fn pop(self) -> Popped;
}

impl RxQueue for MuxerRxQ {
    fn from_conn_map(limit: usize, ports: &[u64], used: &[u8], pending: &[u8]) -> Queued
        ensures { BuildSays (record { limit = limit; ports = ports.now; used = used.now; pending = pending.now }) (record { answer = told result.answer; queue = result.queue }) }
    {
        let limited = limits::is_rxq_limit(limit);
        let sound = conn_map::is_sound(ports, used, pending.len());
        let answer = defs::record_answer(limited & sound);
        let Ok(()) = answer else {
            return Queued {
                answer,
                queue: Queue::empty(0),
            };
        };
        Queued {
            answer,
            queue: build::walk(limit, ports, used, pending),
        }
    }

    fn push(self, rx: MuxerRx) -> Queued
        ensures { PushSays (record { queue = self; rx = rx }) (record { answer = told result.answer; queue = result.queue }) }
    {
        if rx.rst && !queue::has_room(self.synced, self.len, self.limit) {
            return push::evict(self, rx);
        }
        self.push_back(rx)
    }

    fn pop(self) -> Popped
        ensures { PopSays self (pop_seen zero_item result.given result.queue) }
    {
        self.pop_front()
    }
}
