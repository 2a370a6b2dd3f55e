// Timers and out-events.
use crate::send::{Sending, data, send};
use crate::show;
use crate::standing::{SIZE, established};
use connection::VsockConnection;
use defs::limits::MAX_CLOCK_MS;
use defs::{StreamAnswer, StreamAnswers};
use packet::uapi;
use std::io;
use std::io::{Stdout, Write};

// A SHUTDOWN at 5,000 and, on the same record, one at 1,000: each timer goes by its own clock.
pub fn timers(stdout: &mut Stdout) -> io::Result<()> {
    let held = send(stdout, established(), data(), StreamAnswer::WouldBlock)?;
    let early = Sending {
        op: uapi::VSOCK_OP_SHUTDOWN,
        flags: uapi::VSOCK_FLAGS_SHUTDOWN_RCV | uapi::VSOCK_FLAGS_SHUTDOWN_SEND,
        now_ms: 1000,
        ..data()
    };
    let later = Sending {
        now_ms: 5000,
        ..early
    };
    let late = send(stdout, held, later, StreamAnswer::Failed)?;
    send(stdout, held, early, StreamAnswer::Failed)?;
    expiry(stdout, late, 7999)?;
    expiry(stdout, late, 8000)?;
    expiry(stdout, late, MAX_CLOCK_MS + 1)?;
    expiry(stdout, held, 0)
}

fn expiry(stdout: &mut Stdout, conn: VsockConnection, now_ms: u64) -> io::Result<()> {
    write!(stdout, "expiry at {now_ms}")?;
    let will = connection::will_expire(conn, now_ms);
    let has = connection::has_expired(conn, now_ms);
    show::answered(stdout, will)?;
    write!(stdout, " will")?;
    text::yes(stdout, will.unwrap_or(false))?;
    write!(stdout, " has")?;
    text::yes(stdout, has.unwrap_or(false))?;
    writeln!(stdout)
}

// Out-events: of an empty ring nothing is asked; 5 before 6; a second write that fails leaves the
// first count; a first one that fails kills.
pub fn events(stdout: &mut Stdout) -> io::Result<()> {
    let fails = StreamAnswer::Failed;
    event(stdout, established(), StreamAnswer::Count(99), fails, 16)?;
    let mut ring = established();
    ring.tx_buf.tail = 12;
    ring.tx_buf.head = 20;
    let events = [
        (StreamAnswer::Count(5), fails, 16),
        (StreamAnswer::Count(4), StreamAnswer::Count(5), 3),
        (StreamAnswer::Count(4), StreamAnswer::Count(4), 7),
        (StreamAnswer::Count(4), fails, 4),
        (StreamAnswer::WouldBlock, StreamAnswer::Count(99), 0),
        (fails, StreamAnswer::Count(99), 0),
        (StreamAnswer::Count(4), StreamAnswer::Count(4), 8),
    ];
    for (first, second, room) in events {
        event(stdout, ring, first, second, room)?;
    }
    Ok(())
}

fn event(
    stdout: &mut Stdout,
    conn: VsockConnection,
    first: StreamAnswer,
    second: StreamAnswer,
    room: usize,
) -> io::Result<()> {
    let storage = *b"\x00\x01\x02\x03\x04\x05\x06\x07\x08\x09\x0a\x0b\x0c\x0d\x0e\x0f";
    let answers = StreamAnswers { first, second };
    let mut out = [b'.'; SIZE];
    write!(stdout, "event room {room}")?;
    show::by(stdout, first)?;
    show::by(stdout, second)?;
    let o = text::fitting(room, &out);
    let after = connection::notify(conn, true, true, &storage, answers, &mut out[..o]);
    show::answered(stdout, after)?;
    show::record(stdout, after.unwrap_or(conn))?;
    show::bytes(stdout, "out", &out)?;
    writeln!(stdout)
}
