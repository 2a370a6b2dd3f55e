// Opening a connection, from either side. Addresses and space are given one by one, as in the Rust:
// a struct of them would be built for these two calls alone.
#![tactic(auto, unfolding(defs::specs::Choice::when, defs::specs::Answer::when_done, rules::specs::Open::open_answer, rules::specs::Open::fresh_of, rules::specs::Open::zero_conn, rules::specs::Open::peer_init_of, rules::specs::Open::local_init_of))]

ghost use Rattle.std.specs.Prelude.{◌≡◌};
ghost use Rattle.defs.specs.Answer.{told, when_done};
ghost use Rattle.rules.specs.Open.{Opening, ConnLeft, open_answer, zero_conn, PeerInitSays, LocalInitSays};

use crate::record::{Outcome, ok_settings};
use csm::{ConnState, PendingRxSet};
use defs::{Answer, limits};
use rules::{Settings, VsockConnection};
use txbuf::TxBuf;

// Opened by the guest, whose REQUEST told its space: a RESPONSE is due.
pub fn new_peer_init(
    size: u32,
    settings: Settings,
    local_cid: u64,
    peer_cid: u64,
    local_port: u32,
    peer_port: u32,
    peer_buf_alloc: u32,
) -> Outcome
    ensures { PeerInitSays (record { size = size; settings = settings; local_cid = local_cid; peer_cid = peer_cid; local_port = local_port; peer_port = peer_port; alloc = peer_buf_alloc }) (record { answer = told result.answer; conn = result.conn }) }
{
    opened(VsockConnection {
        settings,
        state: ConnState::PeerInit,
        local_cid,
        peer_cid,
        local_port,
        peer_port,
        tx_buf: TxBuf {
            size,
            ..TxBuf::default()
        },
        peer_buf_alloc,
        pending_rx: PendingRxSet {
            response: true,
            ..PendingRxSet::default()
        },
        ..VsockConnection::default()
    })
}

// Opened by the host: a REQUEST is due, and the guest's space is not known yet.
pub fn new_local_init(
    size: u32,
    settings: Settings,
    local_cid: u64,
    peer_cid: u64,
    local_port: u32,
    peer_port: u32,
) -> Outcome
    ensures { LocalInitSays (record { size = size; settings = settings; local_cid = local_cid; peer_cid = peer_cid; local_port = local_port; peer_port = peer_port; alloc = 0 }) (record { answer = told result.answer; conn = result.conn }) }
{
    opened(VsockConnection {
        settings,
        state: ConnState::LocalInit,
        local_cid,
        peer_cid,
        local_port,
        peer_port,
        tx_buf: TxBuf {
            size,
            ..TxBuf::default()
        },
        pending_rx: PendingRxSet {
            request: true,
            ..PendingRxSet::default()
        },
        ..VsockConnection::default()
    })
}

// The record that was opened; the all-zero one, by answer 1, for settings out of range.
fn opened(conn: VsockConnection) -> Outcome
    ensures { ◌≡◌ {A = ConnLeft} (record { answer = told result.answer; conn = result.conn }) (record { answer = told (open_answer conn.tx_buf.size conn.settings); conn = when_done (open_answer conn.tx_buf.size conn.settings) conn zero_conn }) }
{
    let answer = open_answer(conn.tx_buf.size, conn.settings);
    let conn = match answer {
        Ok(()) => conn,
        Err(_) => VsockConnection::default(),
    };
    Outcome { answer, conn }
}

// Answer 1 for settings out of range.
fn open_answer(size: u32, settings: Settings) -> Answer
    ensures { result ≡ open_answer size settings }
{
    defs::record_answer(limits::is_ring_size(size) && ok_settings(settings, size))
}
