// Building from the table: every used slot with RX pending, in slot order, as far as the limit goes.
ghost use Rattle.std.specs.Prelude.{◌≡◌, ◌≤◌, length};
ghost use Rattle.defs.specs.Limits.{max_rxq};
ghost use Rattle.conn_map.specs.Table.{slots_of};
ghost use Rattle.conn_map.specs.Key.{key_of};
ghost use Rattle.muxer_rxq.specs.Build.{conn_to, built_from, marked};

use crate::rxq::{MuxerRx, MuxerRxQ};
use queue::Queue;

// A table is lent as slices of one length each (01), not as one thing. The walk stops at the first
// pending slot that finds the queue full.
pub(crate) fn walk(limit: usize, ports: &[u64], used: &[u8], pending: &[u8]) -> MuxerRxQ
    requires { (limit ≤ max_rxq) × (length used.now ≡ length ports.now) × (length pending.now ≡ length ports.now) }
    ensures { result ≡ built_from limit (slots_of ports.now used.now pending.now) }
{
    let mut queue = Queue::empty(limit);
    for item in ports
        .iter()
        .zip(used)
        .zip(pending)
        .filter(|((_, used), pending)| is_marked(**used, **pending))
        .map(|((ports, _), _)| connection(*ports))
        .take(limit + 1)
    {
        queue.take_in(item);
    }
    queue
}

fn is_marked(used: u8, pending: u8) -> bool
    ensures { result ≡ marked used pending }
{
    used != 0 && pending != 0
}

fn connection(ports: u64) -> MuxerRx
    ensures { result ≡ conn_to (key_of ports) }
{
    let key = conn_map::key_of(ports);
    MuxerRx {
        rst: false,
        local_port: key.local_port,
        peer_port: key.peer_port,
    }
}
