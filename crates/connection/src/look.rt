// The calls that look at a connection or end it: none needs its storage or its stream.
ghost use Rattle.std.specs.Prelude.{◌≡◌, ◌==◌, ◌&&◌, not, None};
ghost use Rattle.defs.specs.Answer.{told, answer_of, given_or};
ghost use Rattle.defs.specs.Look.{flag_seen};
ghost use Rattle.csm.specs.State.{polls};
ghost use Rattle.rules.specs.Record.{credit_of};
ghost use Rattle.csm.specs.declared.state.ConnState.TheVariants.{LocalInit};
ghost use Rattle.rules.specs.Open.{ConnLeft};
ghost use Rattle.rules.specs.Look.{Timed, PendingSays, WillExpireSays, HasExpiredSays, ExpiryLeft, ExpirySays, StateLeft, StateSays, EvSetLeft, EvSetSays, KillSays};
ghost use Rattle.connection.specs.Look.{no_events};

use crate::record::{credit, is_quiet, is_sound, killed};
use csm::{ConnState, Timer, is_after, is_due};
use defs::Refusal;
use rules::VsockConnection;

// The events that the stream is to be watched for.
#[derive(Clone, Copy)]
pub struct EvSet {
    pub readable: bool,
    pub writable: bool,
}

// Whether there is a packet for the guest.
pub fn has_pending_rx(conn: VsockConnection) -> Result<bool, Refusal>
    ensures { PendingSays conn (flag_seen result) }
{
    defs::record_answer(is_sound(conn)).and(Ok(conn.pending_rx.is_pending()))
}

// A timer is set, and its time has not come.
pub fn will_expire(conn: VsockConnection, now_ms: u64) -> Result<bool, Refusal>
    ensures { WillExpireSays (record { conn = conn; clock = now_ms }) (flag_seen result) }
{
    defs::clock_answer(is_sound(conn), now_ms).and(Ok(is_after(conn.expiry, now_ms)))
}

// A timer is set, and its time has come.
pub fn has_expired(conn: VsockConnection, now_ms: u64) -> Result<bool, Refusal>
    ensures { HasExpiredSays (record { conn = conn; clock = now_ms }) (flag_seen result) }
{
    defs::clock_answer(is_sound(conn), now_ms).and(Ok(is_due(conn.expiry, now_ms)))
}

// The timer.
pub fn expiry(conn: VsockConnection) -> Result<Timer, Refusal>
    ensures { ExpirySays conn (record { answer = told (answer_of result); expiry = given_or None result }) }
{
    defs::record_answer(is_sound(conn)).and(Ok(conn.expiry))
}

// The state.
pub fn state(conn: VsockConnection) -> Result<ConnState, Refusal>
    ensures { StateSays conn (record { answer = told (answer_of result); state = given_or LocalInit result }) }
{
    defs::record_answer(is_sound(conn)).and(Ok(conn.state))
}

// Out where the ring holds bytes; in where the guest has room, unless the state forbids data to
// it for good.
pub fn get_polled_evset(conn: VsockConnection) -> Result<EvSet, Refusal>
    ensures { EvSetSays conn (record { answer = told (answer_of result); readable = (given_or no_events result).readable; writable = (given_or no_events result).writable }) }
{
    defs::record_answer(is_sound(conn))?;
    Ok(EvSet {
        readable: may_read(conn),
        writable: !is_quiet(conn.tx_buf),
    })
}

fn may_read(conn: VsockConnection) -> bool
    ensures { result ≡ polls conn.state && not (credit_of conn == 0) }
{
    conn.state.polls() && credit(conn) != 0
}

// To be reset at the next turn to speak.
pub fn kill(conn: VsockConnection) -> Result<VsockConnection, Refusal>
    ensures { KillSays conn (record { answer = told (answer_of result); conn = given_or conn result }) }
{
    defs::record_answer(is_sound(conn)).and(Ok(killed(conn)))
}
