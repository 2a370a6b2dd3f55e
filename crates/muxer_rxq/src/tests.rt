// The calls that every queue has: of this one they keep what specs/ says of it.
ghost use Rattle.defs.specs.Answer.{told};
ghost use Rattle.defs.specs.Look.{flag_seen, len_seen};
ghost use Rattle.queue.specs.Look.{SyncedSays, LengthSays, EmptySays, FullSays, peek_seen};
ghost use Rattle.muxer_rxq.specs.Item.{zero_item};
ghost use Rattle.muxer_rxq.specs.Queue.{rxq, NewSays};
ghost use Rattle.muxer_rxq.specs.Pop.{PeekSays};

use crate::{MuxerRx, MuxerRxQ, Queued, RxQueue};
use defs::Refusal;

fn new(limit: usize) -> Queued
    ensures { NewSays limit (record { answer = told result.answer; queue = result.queue }) }
{
    MuxerRxQ::new(limit)
}

fn peek(queue: MuxerRxQ) -> Result<Option<MuxerRx>, Refusal>
    ensures { PeekSays queue (peek_seen zero_item result) }
{
    queue.peek()
}

fn is_synced(queue: MuxerRxQ) -> Result<bool, Refusal>
    ensures { SyncedSays rxq queue (flag_seen result) }
{
    queue.is_synced()
}

fn len(queue: MuxerRxQ) -> Result<usize, Refusal>
    ensures { LengthSays rxq queue (len_seen result) }
{
    queue.len()
}

fn is_empty(queue: MuxerRxQ) -> Result<bool, Refusal>
    ensures { EmptySays rxq queue (flag_seen result) }
{
    queue.is_empty()
}

fn is_full(queue: MuxerRxQ) -> Result<bool, Refusal>
    ensures { FullSays rxq queue (flag_seen result) }
{
    queue.is_full()
}

#[test]
fn a_queue_of_one(rt: HostRuntime) {
    let rx = MuxerRx {
        rst: true,
        local_port: 5,
        peer_port: 1,
    };
    let queue = new(1).queue.push(rx).queue;
    assert!(rt; peek(queue) == Ok(Some(rx)));
    assert!(rt; is_synced(queue) == Ok(true));
    assert!(rt; len(queue) == Ok(1));
    assert!(rt; is_empty(queue) == Ok(false));
    assert!(rt; is_full(queue) == Ok(true));
    assert!(rt; peek(new(0).queue) == Err(Refusal::BadRecord));
}
