// An item: the ports of a connection, and when it is to be ended.
ghost use Rattle.std.specs.Prelude.{◌≡◌};
ghost use Rattle.std.proofs.Common.{rules};
ghost use Rattle.muxer_killq.specs.Item.{zero_item, is_zero, is_alike, zero_passes, zero_alone};
ghost use Rattle.muxer_killq.specs.Push.{item_at};
ghost use Rattle.muxer_killq.specs.Pop.{key_in};

use conn_map::ConnMapKey;
use queue::Item;

// No `PartialEq`: what `eq` says is not transitive.
#[derive(Clone, Copy, Debug, Default)]
pub struct MuxerKillQItem {
    pub local_port: u32,
    pub peer_port: u32,
    pub kill_time: u64,
}

// muxer_killq.rs: a time error of so many milliseconds is no problem.
const MAX_TIME_ERROR_MS: u64 = 10;

impl MuxerKillQItem {
    #[tactic(auto, unfolding(crate::specs::Item::is_alike, crate::specs::Item::times_apart))]
    pub fn eq(self, other: MuxerKillQItem) -> bool
        ensures { result ≡ is_alike self other }
    {
        let near = self.kill_time.abs_diff(other.kill_time) <= MAX_TIME_ERROR_MS;
        (self.local_port == other.local_port) & (self.peer_port == other.peer_port) & near
    }

    // A connection that is to be ended at a time.
    pub(crate) fn at(key: ConnMapKey, kill_time: u64) -> Self
        ensures { result ≡ item_at key kill_time }
    {
        MuxerKillQItem {
            local_port: key.local_port,
            peer_port: key.peer_port,
            kill_time,
        }
    }

    // Its ports.
    pub(crate) fn key(self) -> ConnMapKey
        ensures { result ≡ key_in self }
    {
        ConnMapKey {
            local_port: self.local_port,
            peer_port: self.peer_port,
        }
    }
}

impl Item for MuxerKillQItem {
    ghost zero_item = { zero_item };

    ghost is_zero = { is_zero };

    ghost zero_passes = { zero_passes };

    ghost zero_alone = { zero_alone };

    ghost default_is_zero = { Prim.search rules };

    // By its fields: it has no `==`.
    #[tactic(auto, unfolding(crate::specs::Item::is_zero))]
    fn is_zero(self) -> bool {
        (self.local_port == 0) & (self.peer_port == 0) & (self.kill_time == 0)
    }
}
