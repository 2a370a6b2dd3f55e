// A connection's record, from and to a frame: oracle/FRAMES.md says where each number stands.
use crate::{frame, ring_calls};
use connection::{Settings, VsockConnection};
use csm::{ConnState, PendingRxSet, Timer};

fn state_of(number: u8, recv_off: bool, send_off: bool) -> ConnState {
    match number {
        0 => ConnState::LocalInit,
        1 => ConnState::PeerInit,
        2 => ConnState::Established,
        3 => ConnState::LocalClosed,
        4 => ConnState::PeerClosed(recv_off, send_off),
        _ => ConnState::Killed,
    }
}

fn pending_of(bits: u8) -> PendingRxSet {
    PendingRxSet {
        request: bits & 1 != 0,
        response: bits & 2 != 0,
        rst: bits & 4 != 0,
        rw: bits & 8 != 0,
        credit_update: bits & 16 != 0,
    }
}

pub fn settings_of(head: &[u8]) -> Settings {
    Settings {
        threshold: frame::u32_at(head, 24),
        request_timeout: frame::u64_at(head, 56),
        shutdown_timeout: frame::u64_at(head, 64),
    }
}

fn state_in(head: &[u8]) -> ConnState {
    state_of(
        frame::byte_at(head, 4),
        frame::yes_at(head, 5),
        frame::yes_at(head, 6),
    )
}

fn timer_in(head: &[u8]) -> Timer {
    frame::yes_at(head, 8).then_some(frame::u64_at(head, 88))
}

pub fn conn_of(head: &[u8]) -> VsockConnection {
    VsockConnection {
        settings: settings_of(head),
        state: state_in(head),
        local_cid: frame::u64_at(head, 72),
        peer_cid: frame::u64_at(head, 80),
        local_port: frame::u32_at(head, 28),
        peer_port: frame::u32_at(head, 32),
        tx_buf: ring_calls::ring_of(head),
        fwd_cnt: frame::u32_at(head, 36),
        peer_buf_alloc: frame::u32_at(head, 40),
        peer_fwd_cnt: frame::u32_at(head, 44),
        rx_cnt: frame::u32_at(head, 48),
        last_fwd_cnt_to_peer: frame::u32_at(head, 52),
        pending_rx: pending_of(frame::byte_at(head, 7)),
        expiry: timer_in(head),
    }
}

pub fn put_state(reply: &mut [u8], state: ConnState) {
    let number = match state {
        ConnState::LocalInit => 0,
        ConnState::PeerInit => 1,
        ConnState::Established => 2,
        ConnState::LocalClosed => 3,
        ConnState::PeerClosed(_, _) => 4,
        ConnState::Killed => 5,
    };
    frame::put_byte(reply, 4, number);
    if let ConnState::PeerClosed(recv_off, send_off) = state {
        frame::put_yes(reply, 5, recv_off);
        frame::put_yes(reply, 6, send_off);
    }
}

pub fn put_timer(reply: &mut [u8], timer: Timer) {
    frame::put_yes(reply, 8, timer.is_some());
    if let Some(time) = timer {
        frame::put_u64(reply, 88, time);
    }
}

pub fn bit(yes: bool, value: u8) -> u8 {
    if yes { value } else { 0 }
}

fn put_pending(reply: &mut [u8], pending: PendingRxSet) {
    let bits = bit(pending.request, 1)
        | bit(pending.response, 2)
        | bit(pending.rst, 4)
        | bit(pending.rw, 8)
        | bit(pending.credit_update, 16);
    frame::put_byte(reply, 7, bits);
}

fn put_settings(reply: &mut [u8], settings: Settings) {
    frame::put_u32(reply, 24, settings.threshold);
    frame::put_u64(reply, 56, settings.request_timeout);
    frame::put_u64(reply, 64, settings.shutdown_timeout);
}

fn put_counters(reply: &mut [u8], conn: VsockConnection) {
    frame::put_u32(reply, 36, conn.fwd_cnt);
    frame::put_u32(reply, 48, conn.rx_cnt);
    frame::put_u32(reply, 52, conn.last_fwd_cnt_to_peer);
}

fn put_peer_credit(reply: &mut [u8], conn: VsockConnection) {
    frame::put_u32(reply, 40, conn.peer_buf_alloc);
    frame::put_u32(reply, 44, conn.peer_fwd_cnt);
}

fn put_addresses(reply: &mut [u8], conn: VsockConnection) {
    frame::put_u32(reply, 28, conn.local_port);
    frame::put_u32(reply, 32, conn.peer_port);
    frame::put_u64(reply, 72, conn.local_cid);
    frame::put_u64(reply, 80, conn.peer_cid);
}

pub fn put_conn(reply: &mut [u8], conn: VsockConnection) {
    ring_calls::put_ring(reply, conn.tx_buf);
    put_settings(reply, conn.settings);
    put_state(reply, conn.state);
    put_pending(reply, conn.pending_rx);
    put_timer(reply, conn.expiry);
    put_counters(reply, conn);
    put_peer_credit(reply, conn);
    put_addresses(reply, conn);
}
