// A turn to speak: the next packet for the guest (01, `recv_pkt`).
//
// From the record and the stream's answer the state machine gives one row; then record, header and
// buffer are written from that row.
#![tactic(auto, unfolding(defs::specs::Choice::when, rules::specs::Record::with_state, rules::specs::Receive::received_of, rules::specs::Receive::spoken_of, rules::specs::Receive::header_of, rules::specs::Receive::recv_door))]

ghost use Rattle.std.specs.Prelude.{◌≡◌, ◌≤◌, ◌==◌};
ghost use Rattle.defs.specs.Answer.{told};
ghost use Rattle.defs.specs.Limits.{max_packet, max_clock, max_timeout};
ghost use Rattle.csm.specs.Row.{row_of};
ghost use Rattle.csm.specs.Timer.{later};
ghost use Rattle.rules.specs.Record.{credit_of};
ghost use Rattle.rules.specs.Receive.{next_step, Receivable, received_of, header_of, reads_of, recv_door, recv_refusal, RecvIn, RecvLeft, RecvSays};

use crate::record::{Outcome, credit, is_sound};
use csm::{Row, Timer, Turn};
use defs::{Answer, StreamAnswer, limits};
use packet::{VsockPacketHdr, uapi};
use rules::VsockConnection;

// Fills in the next packet for the guest. `buf` counts only where it is `present`, and is left
// alone where not (01: absent differs from empty); `read` holds the bytes that the stream's answer
// brought.
pub fn recv_pkt(
    conn: VsockConnection,
    hdr: &mut [u8],
    present: bool,
    buf: &mut [u8],
    now_ms: u64,
    answer: StreamAnswer,
    read: &[u8],
) -> Outcome
    ensures { RecvSays (record { conn = conn; hdr = hdr.old; present = present; buf = buf.old; clock = now_ms; answer = answer; read = read.now }) (record { answer = told result.answer; conn = result.conn; hdr = hdr.new; buf = buf.new }) }
{
    let refusal = recv_refusal(
        conn,
        hdr.len(),
        present,
        buf.len(),
        now_ms,
        answer,
        read.len(),
    );
    if refusal.is_err() {
        return Outcome {
            answer: refusal,
            conn,
        };
    }
    let row = next_row(conn, present, answer);
    let written = packet::encode(header(conn, row), hdr);
    defs::copy(buf, &read[..row.count]);
    Outcome {
        answer: written.and(row.answer),
        conn: received(conn, row, now_ms),
    }
}

// 1 to 4, then 5 where the stream is read.
fn recv_refusal(
    conn: VsockConnection,
    hdr: usize,
    present: bool,
    buf: usize,
    now_ms: u64,
    answer: StreamAnswer,
    read: usize,
) -> Answer
    ensures { result ≡ recv_refusal conn hdr present buf now_ms answer read }
{
    door_of(conn, hdr, present, buf, now_ms)?;
    if !reads(conn, present) {
        return Ok(());
    }
    let StreamAnswer::Count(count) = answer else {
        return Ok(());
    };
    let asked = buf.min(credit(conn) as usize);
    defs::late(asked.min(read) < count, false)
}

pub(crate) fn door_of(
    conn: VsockConnection,
    hdr: usize,
    present: bool,
    buf: usize,
    now_ms: u64,
) -> Answer
    ensures { result ≡ recv_door conn hdr present buf now_ms }
{
    defs::door(
        !is_sound(conn),
        !limits::is_header_length(hdr),
        !limits::is_clock(now_ms),
        present && !limits::is_packet_length(buf),
    )
}

// What a turn to speak goes by.
fn turn(conn: VsockConnection, present: bool) -> Turn
    ensures { result ≡ record { pending = conn.pending_rx; state = conn.state; no_credit = credit_of conn == 0; present = present } }
{
    Turn {
        pending: conn.pending_rx,
        state: conn.state,
        no_credit: credit(conn) == 0,
        present,
    }
}

// Whether this turn reads from the stream.
pub(crate) fn reads(conn: VsockConnection, present: bool) -> bool
    ensures { result ≡ reads_of conn present }
{
    turn(conn, present).reads()
}

// The row of what is said.
fn next_row(conn: VsockConnection, present: bool, answer: StreamAnswer) -> Row
    ensures { result ≡ row_of (next_step conn present answer) }
{
    turn(conn, present).step(answer).row()
}

// What a row leaves: so many bytes went to the guest; where our fwd_cnt counts as told, that is
// kept.
fn received(conn: VsockConnection, row: Row, now_ms: u64) -> VsockConnection
    requires { Receivable conn row now_ms }
    ensures { result ≡ received_of conn row now_ms }
{
    let wait = later_by(now_ms, conn.settings.request_timeout);
    let linger = later_by(now_ms, conn.settings.shutdown_timeout);
    VsockConnection {
        state: row.after.state_after(conn.state),
        rx_cnt: conn.rx_cnt.wrapping_add(row.count as u32),
        last_fwd_cnt_to_peer: if row.tells {
            conn.fwd_cnt
        } else {
            conn.last_fwd_cnt_to_peer
        },
        pending_rx: conn.pending_rx.remaining(row.ends),
        expiry: row.arms.timer_after(conn.expiry, wait, linger),
        ..conn
    }
}

pub(crate) fn later_by(now_ms: u64, wait: u64) -> Timer
    requires { (now_ms ≤ max_clock) × (wait ≤ max_timeout) }
    ensures { result ≡ later now_ms wait }
{
    Some(now_ms + wait)
}

// The header, initialised with our addresses, size and count, then the row's op, flags and len.
fn header(conn: VsockConnection, row: Row) -> VsockPacketHdr
    requires { row.count ≤ max_packet }
    ensures { result ≡ header_of conn row }
{
    VsockPacketHdr {
        src_cid: conn.local_cid,
        dst_cid: conn.peer_cid,
        src_port: conn.local_port,
        dst_port: conn.peer_port,
        len: row.count as u32,
        type_: uapi::VSOCK_TYPE_STREAM,
        op: row.op,
        flags: row.flags,
        buf_alloc: conn.tx_buf.size,
        fwd_cnt: conn.fwd_cnt,
    }
}
