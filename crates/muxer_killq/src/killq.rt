// What the kill queue does beside what every queue does.
ghost use Rattle.std.specs.Prelude.{◌≡◌};
ghost use Rattle.defs.specs.Answer.{told};
ghost use Rattle.queue.specs.Pop.{pop_seen, mapped};
ghost use Rattle.muxer_killq.specs.Push.{PushIn, PushSays};
ghost use Rattle.muxer_killq.specs.Pop.{no_key, key_in, PopIn, PopSays};
ghost use Rattle.muxer_killq.specs.Build.{BuildIn, BuildSays};

use crate::build;
use crate::item::MuxerKillQItem;
use conn_map::ConnMapKey;
use defs::Refusal;
use defs::limits::{self, MAX_KILLQ_SIZE};
use queue::Queue;

pub type MuxerKillQ = Queue<MuxerKillQItem, MAX_KILLQ_SIZE>;

pub type Queued = queue::Queued<MuxerKillQItem, MAX_KILLQ_SIZE>;

// What is given of an item are its ports.
pub type Popped = queue::Popped<ConnMapKey, MuxerKillQItem, MAX_KILLQ_SIZE>;

// What the kill queue has beside `Queue`'s own calls.
pub trait KillQueue: Sized {
    // The queue of a table: `used` is 0 for no, a time 0 is none.
    fn from_conn_map(limit: usize, clock: u64, ports: &[u64], used: &[u8], times: &[u64]) -> Queued;

    // Behind all others whatever the time: a push that is turned down loses sync.
    fn push(self, key: ConnMapKey, kill_time: u64) -> Queued;

    // Only the front is looked at: an item behind it whose time has passed waits.
    fn pop(self, clock: u64) -> Popped;
}

impl KillQueue for MuxerKillQ {
    fn from_conn_map(limit: usize, clock: u64, ports: &[u64], used: &[u8], times: &[u64]) -> Queued
        ensures { BuildSays (record { limit = limit; clock = clock; ports = ports.now; used = used.now; times = times.now }) (record { answer = told result.answer; queue = result.queue }) }
    {
        let limited = limits::is_killq_limit(limit);
        let sound = conn_map::is_sound(ports, used, times.len());
        let answer = defs::clock_answer(limited & sound, clock);
        let Ok(()) = answer else {
            return Queued {
                answer,
                queue: Queue::empty(0),
            };
        };
        let mut queue = build::collect(limit, clock, ports, used, times);
        let len = queue.len;
        build::sort(&mut queue.q, len);
        Queued { answer, queue }
    }

    fn push(self, key: ConnMapKey, kill_time: u64) -> Queued
        ensures { PushSays (record { queue = self; key = key; kill_time = kill_time }) (record { answer = told result.answer; queue = result.queue }) }
    {
        self.push_back(MuxerKillQItem::at(key, kill_time))
    }

    fn pop(self, clock: u64) -> Popped
        ensures { PopSays (record { queue = self; clock = clock }) (pop_seen no_key result.given result.queue) }
    {
        let due = self.front().filter(|front| front.kill_time < clock);
        if due.is_none() || !limits::is_clock(clock) {
            return Popped {
                given: defs::clock_answer(self.is_sound(), clock).and(Ok(None)),
                queue: self,
            };
        }
        // The pop looks whether the queue is sound, which is done once in a call.
        let popped = self.pop_front();
        Popped {
            given: keys(popped.given),
            queue: popped.queue,
        }
    }
}

// What is given, for the item that goes.
fn keys(given: Result<Option<MuxerKillQItem>, Refusal>) -> Result<Option<ConnMapKey>, Refusal>
    ensures { result ≡ mapped key_in given }
{
    match given? {
        Some(front) => Ok(Some(front.key())),
        None => Ok(None),
    }
}
