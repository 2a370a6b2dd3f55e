// A connection's entries, 11 to 23. The ring's storage is the first run, the header the second,
// the packet's buffer the third, what a read brings or a raw send sends the fourth, the outgoing
// buffer the fifth.
use crate::conn_record::{bit, conn_of, put_conn, put_state, put_timer, settings_of};
use crate::{frame, ring_calls};
use connection::{EvSet, Outcome, VsockConnection, VsockPacket};
use defs::{Answer, Refusal};

pub fn call(
    entry: u8,
    head: &[u8],
    storage: &mut [u8],
    hdr: &mut [u8],
    buf: &mut [u8],
    bytes: &[u8],
    out: &mut [u8],
) {
    match entry {
        11 => new_peer_init(head, storage, out),
        12 => new_local_init(head, storage, out),
        13 => send_pkt(head, storage, hdr, buf, out),
        14 => recv_pkt(head, storage, hdr, buf, bytes),
        15 => notify(head, storage, out),
        16 => send_bytes_raw(head, storage, bytes, out),
        17 => kill(head, storage),
        _ => look(entry, head, storage),
    }
}

fn look(entry: u8, head: &[u8], storage: &[u8]) {
    match entry {
        18 => has_pending_rx(head, storage),
        19 => get_polled_evset(head, storage),
        20 => will_expire(head, storage),
        21 => has_expired(head, storage),
        22 => expiry(head, storage),
        _ => state(head, storage),
    }
}

fn write(
    head: &[u8],
    answer: Answer,
    value: u64,
    conn: VsockConnection,
    storage: &[u8],
    hdr: &[u8],
    buf: &[u8],
    out: &[u8],
) {
    let mut reply = frame::reply_to(head, answer);
    put_conn(&mut reply, conn);
    frame::put_u64(&mut reply, 104, value);
    frame::write(&mut reply, storage, hdr, buf, b"", out);
}

fn leave(head: &[u8], outcome: Outcome, storage: &[u8], hdr: &[u8], buf: &[u8], out: &[u8]) {
    write(
        head,
        outcome.answer,
        0,
        outcome.conn,
        storage,
        hdr,
        buf,
        out,
    );
}

// What a call leaves of a record: its own, where it is refused.
fn outcome(conn: VsockConnection, left: Result<VsockConnection, Refusal>) -> Outcome {
    Outcome {
        answer: left.and(Ok(())),
        conn: left.unwrap_or(conn),
    }
}

fn new_peer_init(head: &[u8], storage: &[u8], out: &[u8]) {
    let ring = ring_calls::ring_of(head);
    let opened = connection::new_peer_init(
        ring.size,
        settings_of(head),
        frame::u64_at(head, 72),
        frame::u64_at(head, 80),
        frame::u32_at(head, 28),
        frame::u32_at(head, 32),
        frame::u32_at(head, 40),
    );
    leave(head, opened, storage, b"", b"", out);
}

fn new_local_init(head: &[u8], storage: &[u8], out: &[u8]) {
    let ring = ring_calls::ring_of(head);
    let opened = connection::new_local_init(
        ring.size,
        settings_of(head),
        frame::u64_at(head, 72),
        frame::u64_at(head, 80),
        frame::u32_at(head, 28),
        frame::u32_at(head, 32),
    );
    leave(head, opened, storage, b"", b"", out);
}

fn send_pkt(head: &[u8], storage: &mut [u8], hdr: &[u8], buf: &[u8], out: &mut [u8]) {
    let present = frame::yes_at(head, 9);
    let clock = frame::u64_at(head, 96);
    let conn = conn_of(head);
    let pkt = VsockPacket { hdr, present, buf };
    let sent = connection::send_pkt(conn, pkt, clock, storage, frame::answers(head), out);
    leave(head, outcome(conn, sent), storage, hdr, buf, out);
}

fn recv_pkt(head: &[u8], storage: &[u8], hdr: &mut [u8], buf: &mut [u8], bytes: &[u8]) {
    let present = frame::yes_at(head, 9);
    let clock = frame::u64_at(head, 96);
    let read = frame::first_answer(head);
    let got = connection::recv_pkt(conn_of(head), hdr, present, buf, clock, read, bytes);
    leave(head, got, storage, hdr, buf, b"");
}

fn notify(head: &[u8], storage: &[u8], out: &mut [u8]) {
    let readable = frame::yes_at(head, 10);
    let writable = frame::yes_at(head, 11);
    let conn = conn_of(head);
    let told = connection::notify(conn, readable, writable, storage, frame::answers(head), out);
    leave(head, outcome(conn, told), storage, b"", b"", out);
}

fn send_bytes_raw(head: &[u8], storage: &[u8], bytes: &[u8], out: &mut [u8]) {
    let conn = conn_of(head);
    let sent = connection::send_bytes_raw(conn, bytes, frame::answers(head), out);
    let count = sent.unwrap_or(0) as u64;
    write(head, sent.and(Ok(())), count, conn, storage, b"", b"", out);
}

fn kill(head: &[u8], storage: &[u8]) {
    let conn = conn_of(head);
    let killed = connection::kill(conn);
    leave(head, outcome(conn, killed), storage, b"", b"", b"");
}

// ---- the calls that only look: a yes is 1, of two the second is 2

fn seen(head: &[u8], answer: Answer, value: u8, conn: VsockConnection, storage: &[u8]) {
    write(head, answer, value as u64, conn, storage, b"", b"", b"");
}

fn told(head: &[u8], flag: Result<bool, Refusal>, conn: VsockConnection, storage: &[u8]) {
    let value = u8::from(flag.unwrap_or(false));
    seen(head, flag.and(Ok(())), value, conn, storage);
}

fn has_pending_rx(head: &[u8], storage: &[u8]) {
    let conn = conn_of(head);
    told(head, connection::has_pending_rx(conn), conn, storage);
}

fn get_polled_evset(head: &[u8], storage: &[u8]) {
    let conn = conn_of(head);
    let events = connection::get_polled_evset(conn);
    let none = EvSet {
        readable: false,
        writable: false,
    };
    let polled = events.unwrap_or(none);
    let value = bit(polled.readable, 1) | bit(polled.writable, 2);
    seen(head, events.and(Ok(())), value, conn, storage);
}

fn will_expire(head: &[u8], storage: &[u8]) {
    let conn = conn_of(head);
    let flag = connection::will_expire(conn, frame::u64_at(head, 96));
    told(head, flag, conn, storage);
}

fn has_expired(head: &[u8], storage: &[u8]) {
    let conn = conn_of(head);
    let flag = connection::has_expired(conn, frame::u64_at(head, 96));
    told(head, flag, conn, storage);
}

// The reply has what `expiry` says in place of the record.
fn expiry(head: &[u8], storage: &[u8]) {
    let timer = connection::expiry(conn_of(head));
    let mut reply = frame::reply_to(head, timer.and(Ok(())));
    put_timer(&mut reply, timer.unwrap_or(None));
    frame::write(&mut reply, storage, b"", b"", b"", b"");
}

fn state(head: &[u8], storage: &[u8]) {
    let state = connection::state(conn_of(head));
    let mut reply = frame::reply_to(head, state.and(Ok(())));
    put_state(&mut reply, state.unwrap_or_default());
    frame::write(&mut reply, storage, b"", b"", b"", b"");
}
