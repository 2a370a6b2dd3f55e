// Readings i and j: kill times and the queues.
use crate::scene::established;
use conn_map::ConnMapKey;
use connection::VsockConnection;
use csm::ConnState;
use muxer_killq::{KillQueue, MuxerKillQ};
use muxer_rxq::{MuxerRx, MuxerRxQ, RxQueue};
use std::io;
use std::io::Stdout;
use text::{number, say, yes};

// A kill time of 500: expired, by a connection's timer, and popped, by the kill queue.
pub fn reading_i(stdout: &mut Stdout) -> io::Result<()> {
    say(stdout, b"i expired at 499")?;
    yes(stdout, has_expired(499))?;
    say(stdout, b", at 500")?;
    yes(stdout, has_expired(500))?;
    let key = ConnMapKey {
        local_port: 1024,
        peer_port: 5000,
    };
    let waiting = MuxerKillQ::new(2).queue.push(key, 500).queue;
    say(stdout, b"; popped at 500")?;
    yes(stdout, is_popped(waiting, 500))?;
    say(stdout, b", at 501")?;
    yes(stdout, is_popped(waiting, 501))?;
    say(stdout, b"\n")
}

fn has_expired(now_ms: u64) -> bool {
    connection::has_expired(timed(500), now_ms).unwrap_or(false)
}

fn is_popped(queue: MuxerKillQ, clock: u64) -> bool {
    queue.pop(clock).given.unwrap_or(None).is_some()
}

// An established connection with a timer.
fn timed(time: u64) -> VsockConnection {
    VsockConnection {
        state: ConnState::Established,
        expiry: Some(time),
        ..established(100)
    }
}

// Q = 2, [C1 C2]: RSTs r and s, a third; then a pop and one more.
pub fn reading_j(stdout: &mut Stdout) -> io::Result<()> {
    say(stdout, b"j")?;
    let empty = MuxerRxQ::new(2).queue;
    let a = queued(stdout, empty, false, 1)?;
    let b = queued(stdout, a, false, 2)?;
    let c = queued(stdout, b, true, 8)?;
    let d = queued(stdout, c, true, 9)?;
    let e = queued(stdout, d, true, 10)?;
    let f = e.pop().queue;
    say(stdout, b" pop;")?;
    let g = queued(stdout, f, true, 10)?;
    say(stdout, b" full")?;
    yes(stdout, g.is_full().unwrap_or(false))?;
    say(stdout, b"\n")
}

// A push, its answer, and both places.
fn queued(
    stdout: &mut Stdout,
    queue: MuxerRxQ,
    rst: bool,
    local_port: u32,
) -> io::Result<MuxerRxQ> {
    let pushed = queue.push(MuxerRx {
        rst,
        local_port,
        peer_port: 1,
    });
    number(stdout, defs::number_of(pushed.answer) as u64)?;
    say(stdout, b" [")?;
    say_item(stdout, pushed.queue.q[0])?;
    say_item(stdout, pushed.queue.q[1])?;
    say(stdout, b" ];")?;
    Ok(pushed.queue)
}

fn say_item(stdout: &mut Stdout, item: MuxerRx) -> io::Result<()> {
    say(stdout, if item.rst { b" r" } else { b" C" })?;
    text::digits(stdout, item.local_port as u64)
}
