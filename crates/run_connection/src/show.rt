// What a line shows of answers, records and buffers.
use connection::VsockConnection;
use csm::ConnState;
use defs::{Refusal, StreamAnswer};
use std::io;
use std::io::{Stdout, Write};

// By 01's number of the answer, whatever it gives.
pub fn answered<T: Copy>(stdout: &mut Stdout, outcome: Result<T, Refusal>) -> io::Result<()> {
    write!(stdout, ": {}", defs::number_of(outcome.and(Ok(()))))
}

// The length of a buffer, where there is one.
pub fn buffer(stdout: &mut Stdout, present: bool, n: usize) -> io::Result<()> {
    if present {
        write!(stdout, " buf {n}")
    } else {
        write!(stdout, " no buf")
    }
}

pub fn bytes(stdout: &mut Stdout, name: &str, shown: &[u8]) -> io::Result<()> {
    write!(stdout, " {name} ")?;
    text::bytes(stdout, shown)
}

// As `run_ring`'s, in the words of this output.
pub fn by(stdout: &mut Stdout, answer: StreamAnswer) -> io::Result<()> {
    match answer {
        StreamAnswer::Count(n) => write!(stdout, " by {n}"),
        StreamAnswer::WouldBlock => write!(stdout, " blocks"),
        StreamAnswer::Failed => write!(stdout, " fails"),
    }
}

// The bare name: a `Display` of the state would have to show the flags of PeerClosed.
pub fn state(stdout: &mut Stdout, conn: VsockConnection) -> io::Result<()> {
    let name = match conn.state {
        ConnState::LocalInit => "LocalInit",
        ConnState::PeerInit => "PeerInit",
        ConnState::Established => "Established",
        ConnState::LocalClosed => "LocalClosed",
        ConnState::PeerClosed(_, _) => "PeerClosed",
        ConnState::Killed => "Killed",
    };
    write!(stdout, " {name}")
}

pub fn timer(stdout: &mut Stdout, conn: VsockConnection) -> io::Result<()> {
    match conn.expiry {
        None => write!(stdout, " no timer"),
        Some(time) => write!(stdout, " timer {time}"),
    }
}

pub fn pending(stdout: &mut Stdout, conn: VsockConnection) -> io::Result<()> {
    let pending = conn.pending_rx;
    let marks = [
        (pending.rst, "rst"),
        (pending.rw, "rw"),
        (pending.credit_update, "update"),
    ];
    for (is_set, name) in marks {
        if is_set {
            write!(stdout, " {name}")?;
        }
    }
    Ok(())
}

pub fn record(stdout: &mut Stdout, conn: VsockConnection) -> io::Result<()> {
    let alloc = conn.peer_buf_alloc;
    let held = conn.tx_buf.used();
    state(stdout, conn)?;
    write!(stdout, " alloc {alloc} held {held} fwd {}", conn.fwd_cnt)?;
    pending(stdout, conn)
}
