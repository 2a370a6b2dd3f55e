// What every call does with the record of a connection.
#![tactic(auto, unfolding(rules::specs::Record::ok_settings, rules::specs::Record::sound_conn, rules::specs::Record::sound_over, rules::specs::Record::quiet, rules::specs::Record::credit_of, rules::specs::Record::killed_of, rules::specs::Record::with_state))]

ghost use Rattle.std.specs.Prelude.{◌≡◌};
ghost use Rattle.rules.specs.Record.{ok_settings, sound_conn, sound_over, quiet, credit_of, killed_of};

use csm::{ConnState, PendingRxSet};
use defs::{Answer, limits};
use rules::{Settings, VsockConnection};
use txbuf::TxBuf;

// What a call comes back with that leaves a record whatever its answer: a refused opening gives
// the all-zero record, and a turn that says nothing, or has no buffer, leaves another than before.
#[derive(Clone, Copy)]
pub struct Outcome {
    pub answer: Answer,
    pub conn: VsockConnection,
}

pub(crate) fn ok_settings(settings: Settings, size: u32) -> bool
    ensures { result ≡ ok_settings settings size }
{
    limits::is_threshold(settings.threshold, size)
        && limits::is_timeout(settings.request_timeout)
        && limits::is_timeout(settings.shutdown_timeout)
}

// Whether the record is sound, where no ring storage is lent.
pub(crate) fn is_sound(conn: VsockConnection) -> bool
    ensures { result ≡ sound_conn conn }
{
    conn.tx_buf.is_sound() && ok_settings(conn.settings, conn.tx_buf.size)
}

// Whether it is sound over a ring storage of so many bytes.
pub(crate) fn is_sound_over(conn: VsockConnection, storage: usize) -> bool
    ensures { result ≡ sound_over conn storage }
{
    conn.tx_buf.is_sound_over(storage) && ok_settings(conn.settings, conn.tx_buf.size)
}

// Whether the ring counts as empty.
pub(crate) fn is_quiet(ring: TxBuf) -> bool
    ensures { result ≡ quiet ring }
{
    ring.used() == 0
}

// How many bytes the guest has room for.
pub(crate) fn credit(conn: VsockConnection) -> u32
    ensures { result ≡ credit_of conn }
{
    defs::peer_avail_credit(conn.peer_buf_alloc, conn.rx_cnt, conn.peer_fwd_cnt)
}

// Killed, with only the reset pending: once that is said there is nothing more to say.
pub(crate) fn killed(conn: VsockConnection) -> VsockConnection
    ensures { result ≡ killed_of conn }
{
    VsockConnection {
        state: ConnState::Killed,
        pending_rx: PendingRxSet {
            rst: true,
            ..PendingRxSet::default()
        },
        ..conn
    }
}
