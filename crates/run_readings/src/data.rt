// Readings a to h: the first header, data and credit.
use crate::scene::{SIZE, data, established, opened, say_op, say_state, sent, turn};
use connection::VsockConnection;
use defs::limits::VSOCK_PKT_HDR_SIZE;
use defs::{StreamAnswer, StreamAnswers};
use std::io;
use std::io::{Stdout, Write};

// The first receive of a guest-opened connection: its header, whole.
pub fn reading_a(stdout: &mut Stdout) -> io::Result<()> {
    let mut hdr = [0u8; VSOCK_PKT_HDR_SIZE];
    turn(opened(100), &mut hdr, false, StreamAnswer::WouldBlock);
    say_bytes(stdout, "a ", &hdr)?;
    writeln!(stdout)
}

// 10 bytes to an empty ring, of which the stream takes 4; then 10 more, or 11.
pub fn reading_bcd(stdout: &mut Stdout) -> io::Result<()> {
    let mut storage = [0u8; SIZE as usize];
    let b = sent(established(100), data(10, 4), &mut storage);
    say_data(stdout, "b", b)?;
    let mut other = storage;
    say_data(stdout, "c", sent(b, data(10, 0), &mut storage))?;
    say_data(stdout, "d", sent(b, data(11, 0), &mut other))
}

fn say_data(stdout: &mut Stdout, letter: &str, conn: VsockConnection) -> io::Result<()> {
    write!(stdout, "{letter}")?;
    say_state(stdout, conn)?;
    let held = conn.tx_buf.used();
    let update = if conn.pending_rx.credit_update {
        "update"
    } else {
        "no update"
    };
    writeln!(stdout, ", held {held}, count {}, {update}", conn.fwd_cnt)
}

// Whether a credit update is due at a count minus told of 12, 13 and 17: so many bytes, all taken.
pub fn reading_e(stdout: &mut Stdout) -> io::Result<()> {
    write!(stdout, "e")?;
    for n in [12, 13, 17] {
        update_due(stdout, n)?;
    }
    writeln!(stdout)
}

fn update_due(stdout: &mut Stdout, n: u32) -> io::Result<()> {
    let mut storage = [0u8; SIZE as usize];
    let after = sent(established(100), data(n, n as usize), &mut storage);
    let update = if after.pending_rx.credit_update {
        "update"
    } else {
        "none"
    };
    write!(stdout, " {}: {update};", after.fwd_cnt)
}

// Head 20, tail 12, over a storage whose bytes tell their place: both pieces, then an out-event that
// takes 4 and fails.
pub fn reading_f(stdout: &mut Stdout) -> io::Result<()> {
    let storage = *b"\x00\x01\x02\x03\x04\x05\x06\x07\x08\x09\x0a\x0b\x0c\x0d\x0e\x0f";
    let mut conn = established(100);
    conn.tx_buf.head = 20;
    conn.tx_buf.tail = 12;
    let first = connection::notify_offered(conn, true, &storage);
    let next = connection::notify_offered_next(conn, true, &storage);
    say_bytes(stdout, "f pieces ", first)?;
    say_bytes(stdout, " and ", next)?;
    let answers = StreamAnswers {
        first: StreamAnswer::Count(4),
        second: StreamAnswer::Failed,
    };
    let mut out = [0u8; SIZE as usize];
    let after = connection::notify(conn, false, true, &storage, answers, &mut out);
    let left = after.unwrap_or(conn);
    write!(
        stdout,
        ", count {}, tail {},",
        left.fwd_cnt, left.tx_buf.tail
    )?;
    say_state(stdout, left)?;
    writeln!(stdout)
}

fn say_bytes(stdout: &mut Stdout, before: &str, bytes: &[u8]) -> io::Result<()> {
    write!(stdout, "{before}")?;
    text::bytes(stdout, bytes)
}

// Credit 1, a buffer of 0 bytes, a read of 0 bytes; then credit 0 and no buffer.
pub fn reading_g(stdout: &mut Stdout) -> io::Result<()> {
    let mut hdr = [0u8; VSOCK_PKT_HDR_SIZE];
    let readable = seen(established(1));
    let closed = turn(readable, &mut hdr, true, StreamAnswer::Count(0));
    write!(stdout, "g")?;
    say_state(stdout, closed)?;
    let blocked = seen(established(0));
    turn(blocked, &mut hdr, false, StreamAnswer::WouldBlock);
    write!(stdout, ",")?;
    say_op(stdout, &hdr)?;
    writeln!(stdout)
}

// An in-event: there is data to read.
fn seen(conn: VsockConnection) -> VsockConnection {
    let storage = [0u8; SIZE as usize];
    let answers = StreamAnswers {
        first: StreamAnswer::WouldBlock,
        second: StreamAnswer::WouldBlock,
    };
    let mut out = [0u8; 1];
    connection::notify(conn, true, false, &storage, answers, &mut out).unwrap_or(conn)
}

// Alloc 10, sent 14, peer fwd 2: the credit, a turn with data to be read, and the polled events.
pub fn reading_h(stdout: &mut Stdout) -> io::Result<()> {
    let mut hdr = [0u8; VSOCK_PKT_HDR_SIZE];
    let mut conn = established(10);
    conn.rx_cnt = 14;
    conn.peer_fwd_cnt = 2;
    let credit = defs::peer_avail_credit(conn.peer_buf_alloc, conn.rx_cnt, conn.peer_fwd_cnt);
    turn(seen(conn), &mut hdr, true, StreamAnswer::Count(0));
    write!(stdout, "h credit {credit},")?;
    say_op(stdout, &hdr)?;
    let polled = connection::get_polled_evset(conn);
    write!(stdout, ", readable")?;
    text::yes(stdout, polled.is_ok_and(|events| events.readable))?;
    writeln!(stdout)
}
