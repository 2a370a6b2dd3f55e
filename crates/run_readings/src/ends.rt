// Readings k and l: shutdowns and a kill.
use crate::scene::{
    SIZE, Sending, data, established, opened, opened_by_host, say_op, say_state, sent, spoken, turn,
};
use connection::VsockConnection;
use defs::StreamAnswer;
use defs::limits::VSOCK_PKT_HDR_SIZE;
use packet::uapi;
use std::io;
use std::io::{Stdout, Write};

// The timer after SHUTDOWN 3 at 1,000 with one byte held; after SHUTDOWN 1 at 1,000, 2 at 1,500 and 3
// at 1,800; and after SHUTDOWN 3 at 1,000 and at 2,500 where the request's timer runs.
pub fn reading_k(stdout: &mut Stdout) -> io::Result<()> {
    let mut storage = [0u8; SIZE as usize];
    let conn = holding(established(100), &mut storage);
    say_timer(stdout, "k timer", shut(conn, 1000, 3, &mut storage))?;
    let half = shut(conn, 1000, 1, &mut storage);
    say_timer(stdout, "; in two halves", half)?;
    let whole = shut(half, 1500, 2, &mut storage);
    say_timer(stdout, ", then", whole)?;
    say_timer(stdout, ", again", shut(whole, 1800, 3, &mut storage))?;
    let running = holding(asking(&mut storage), &mut storage);
    let early = shut(running, 1000, 3, &mut storage);
    say_timer(stdout, "; with one that runs", early)?;
    let late = shut(running, 2500, 3, &mut storage);
    say_timer(stdout, ", once expired", late)?;
    writeln!(stdout)
}

// A packet of one byte, and the stream takes none.
fn holding(conn: VsockConnection, storage: &mut [u8]) -> VsockConnection {
    sent(conn, data(1, 0), storage)
}

fn shut(conn: VsockConnection, now_ms: u64, flags: u32, storage: &mut [u8]) -> VsockConnection {
    let sending = Sending {
        now_ms,
        op: uapi::VSOCK_OP_SHUTDOWN,
        flags,
        ..data(0, 0)
    };
    sent(conn, sending, storage)
}

// Opened by the host: the RESPONSE comes before the REQUEST is said, both at 0, so that the
// request's timer runs in Established.
fn asking(storage: &mut [u8]) -> VsockConnection {
    let mut hdr = [0u8; VSOCK_PKT_HDR_SIZE];
    let response = Sending {
        op: uapi::VSOCK_OP_RESPONSE,
        ..data(0, 0)
    };
    let conn = sent(opened_by_host(), response, storage);
    turn(conn, &mut hdr, false, StreamAnswer::WouldBlock)
}

fn say_timer(stdout: &mut Stdout, before: &str, conn: VsockConnection) -> io::Result<()> {
    match conn.expiry {
        None => write!(stdout, "{before} none"),
        Some(time) => write!(stdout, "{before} {time}"),
    }
}

// Killed in PeerInit, then two turns to speak.
pub fn reading_l(stdout: &mut Stdout) -> io::Result<()> {
    let mut hdr = [0u8; VSOCK_PKT_HDR_SIZE];
    let conn = opened(100);
    let killed = connection::kill(conn).unwrap_or(conn);
    let first = turn(killed, &mut hdr, false, StreamAnswer::WouldBlock);
    write!(stdout, "l")?;
    say_op(stdout, &hdr)?;
    let second = spoken(first, &mut hdr, false, StreamAnswer::WouldBlock);
    write!(stdout, ", answer {},", defs::number_of(second.answer))?;
    say_state(stdout, second.conn)?;
    writeln!(stdout)
}
