// An RST has no other storage, a connection can be asked again: so where the queue takes nothing
// more, an RST takes the place of a connection, and sync is lost.
ghost use Rattle.std.specs.Prelude.{MatchOption};
ghost use Rattle.defs.specs.Answer.{told};
ghost use Rattle.muxer_rxq.specs.Push.{EvictSays};
ghost use Rattle.muxer_rxq.specs.Outcomes.{RearmostAt, AllRsts};

use crate::rxq::{MuxerRx, MuxerRxQ, Queued};
use defs::Refusal;

// An RST takes the place of the rearmost connection; where there is none it is turned down.
pub(crate) fn evict(mut queue: MuxerRxQ, rst: MuxerRx) -> Queued
    ensures { EvictSays (record { queue = queue; rx = rst }) (record { answer = told result.answer; queue = result.queue }) }
{
    let answer = queue.answer();
    let Ok(()) = answer else {
        return Queued { answer, queue };
    };
    let Some(at) = rearmost(&queue.q[..queue.len]) else {
        return Queued {
            answer: Err(Refusal::NotQueued),
            queue,
        };
    };
    queue.q[at] = rst;
    queue.synced = false;
    Queued { answer, queue }
}

// The place of the rearmost connection.
fn rearmost(items: &[MuxerRx]) -> Option<usize>
    ensures { MatchOption result (AllRsts items.now) (RearmostAt items.now) }
{
    items.iter().rposition(|rx| !rx.rst)
}
