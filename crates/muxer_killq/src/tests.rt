// The calls that every queue has: of this one they keep what specs/ says of it.
ghost use Rattle.defs.specs.Answer.{told};
ghost use Rattle.defs.specs.Look.{flag_seen, len_seen};
ghost use Rattle.queue.specs.Look.{SyncedSays, LengthSays, EmptySays, FullSays, peek_seen};
ghost use Rattle.muxer_killq.specs.Item.{zero_item};
ghost use Rattle.muxer_killq.specs.Queue.{killq, NewSays};
ghost use Rattle.muxer_killq.specs.Pop.{PeekSays};

use crate::{KillQueue, MuxerKillQ, MuxerKillQItem, Queued};
use conn_map::ConnMapKey;
use defs::Refusal;

fn new(limit: usize) -> Queued
    ensures { NewSays limit (record { answer = told result.answer; queue = result.queue }) }
{
    MuxerKillQ::new(limit)
}

fn peek(queue: MuxerKillQ) -> Result<Option<MuxerKillQItem>, Refusal>
    ensures { PeekSays queue (peek_seen zero_item result) }
{
    queue.peek()
}

fn is_synced(queue: MuxerKillQ) -> Result<bool, Refusal>
    ensures { SyncedSays killq queue (flag_seen result) }
{
    queue.is_synced()
}

fn len(queue: MuxerKillQ) -> Result<usize, Refusal>
    ensures { LengthSays killq queue (len_seen result) }
{
    queue.len()
}

fn is_empty(queue: MuxerKillQ) -> Result<bool, Refusal>
    ensures { EmptySays killq queue (flag_seen result) }
{
    queue.is_empty()
}

fn is_full(queue: MuxerKillQ) -> Result<bool, Refusal>
    ensures { FullSays killq queue (flag_seen result) }
{
    queue.is_full()
}

#[test]
fn a_queue_of_one(rt: HostRuntime) {
    let key = ConnMapKey {
        local_port: 5,
        peer_port: 1,
    };
    let queue = new(1).queue.push(key, 700).queue;
    assert!(rt; matches!(peek(queue), Ok(Some(item)) if item.kill_time == 700));
    assert!(rt; is_synced(queue) == Ok(true));
    assert!(rt; len(queue) == Ok(1));
    assert!(rt; is_empty(queue) == Ok(false));
    assert!(rt; is_full(queue) == Ok(true));
    assert!(rt; matches!(peek(new(0).queue), Err(Refusal::BadRecord)));
}
