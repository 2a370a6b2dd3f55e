// What the stream's events do (01, `notify`): an in-event leaves word that there is data to read,
// an out-event flushes the ring.
#![tactic(auto, unfolding(defs::specs::Choice::when, rules::specs::Record::with_state, rules::specs::Notify::seen_of, rules::specs::Notify::settled_of, rules::specs::Notify::drained_of, rules::specs::Notify::notify_door))]

ghost use Rattle.std.specs.Prelude.{◌≡◌, ◌≤◌};
ghost use Rattle.defs.specs.Answer.{told, answer_of, given_or};
ghost use Rattle.defs.specs.Limits.{max_ring};
ghost use Rattle.rules.specs.Record.{quiet};
ghost use Rattle.rules.specs.Notify.{flush_due, seen_of, absorbed, settled_of, drained_of, NotifyIn, NotifyLeft, NotifySays};
ghost use Rattle.rules.specs.Offer.{NotifyDoorSays};

use crate::record::{is_quiet, is_sound_over, killed};
use crate::send::{moved, updated};
use defs::{Answer, Refusal, StreamAnswers};
use rules::VsockConnection;
use txbuf::{Flushed, TxBuf};

// What an event answers of 1 to 4.
pub fn notify_door(conn: VsockConnection, storage: &[u8]) -> Answer
    ensures { NotifyDoorSays conn storage.now (told result) }
{
    defs::record_answer(is_sound_over(conn, storage.len()))
}

// Takes the stream's events. What the stream takes of a flush stands at the front of `out`.
pub fn notify(
    conn: VsockConnection,
    readable: bool,
    writable: bool,
    storage: &[u8],
    answers: StreamAnswers,
    out: &mut [u8],
) -> Result<VsockConnection, Refusal>
    ensures { NotifySays (record { conn = conn; readable = readable; writable = writable; store = storage.now; answers = answers; out = out.old }) (record { answer = told (answer_of result); conn = given_or conn result; out = out.new }) }
{
    notify_door(conn, storage)?;
    let seen = see(conn, readable);
    if !is_flush_due(conn, writable) {
        return Ok(seen);
    }
    let flushed = conn.tx_buf.flush_to(storage, answers, out);
    let left = absorb(conn.tx_buf, flushed)?;
    Ok(drained(seen, left, answers.first.has_failed()))
}

// A flush is due on an out-event, unless the ring is empty.
pub(crate) fn is_flush_due(conn: VsockConnection, writable: bool) -> bool
    ensures { result ≡ flush_due conn writable }
{
    writable && !is_quiet(conn.tx_buf)
}

fn see(conn: VsockConnection, readable: bool) -> VsockConnection
    ensures { result ≡ seen_of conn readable }
{
    VsockConnection {
        pending_rx: conn.pending_rx.mark(false, readable, false),
        ..conn
    }
}

// A first write that blocks or fails is no refusal of the event: nothing was taken then.
fn absorb(ring: TxBuf, flushed: Result<Flushed, Refusal>) -> Result<Flushed, Refusal>
    ensures answer { answer_of result ≡ absorbed (answer_of flushed) }
    ensures left { given_or (record { count = 0; ring = ring }) result ≡ given_or (record { count = 0; ring = ring }) flushed }
{
    match flushed {
        Ok(_) => flushed,
        Err(refusal) => match refusal {
            Refusal::StreamBlocked | Refusal::StreamFailed => Ok(Flushed { count: 0, ring }),
            _ => flushed,
        },
    }
}

// After a flush. A failed first write kills, and nothing follows.
fn drained(conn: VsockConnection, left: Flushed, fails: bool) -> VsockConnection
    requires { left.count ≤ max_ring }
    ensures { result ≡ drained_of conn left.ring left.count (quiet left.ring) fails }
{
    let next = moved(conn, left.ring, left.count);
    if fails {
        killed(next)
    } else {
        settled(next, is_quiet(left.ring))
    }
}

// A guest that shut down both ways has waited for the ring to drain; any other may be owed a
// credit update.
fn settled(conn: VsockConnection, empty: bool) -> VsockConnection
    ensures { result ≡ settled_of conn empty }
{
    if conn.state.both_off() && empty {
        VsockConnection {
            pending_rx: conn.pending_rx.mark(true, false, false),
            ..conn
        }
    } else {
        updated(conn)
    }
}
