// R, the slots of a table and Q on both sides of their limits (02, 2026-10): each number, what it is
// answered, and what that leaves.
use crate::scene::TIMEOUT;
use conn_map::PORT_SPAN;
use connection::Settings;
use defs::Answer;
use defs::limits::MAX_CONNECTIONS;
use muxer_killq::{KillQueue, MuxerKillQ};
use muxer_rxq::{MuxerRxQ, RxQueue};
use std::io;
use std::io::{Stdout, Write};
use txbuf::TxBuf;

pub fn reading_r(stdout: &mut Stdout) -> io::Result<()> {
    write!(stdout, "R")?;
    for n in [131072, 524288, 1048576, 1048575, 1048577, 2097152] {
        size(stdout, n)?;
    }
    writeln!(stdout)
}

// A ring by itself, a connection opened by the guest and one by the host, T being R: the answer to
// each, and the size that each has.
fn size(stdout: &mut Stdout, n: u32) -> io::Result<()> {
    let settings = Settings {
        threshold: n,
        request_timeout: TIMEOUT,
        shutdown_timeout: TIMEOUT,
    };
    let made = TxBuf::new(n);
    let guest = connection::new_peer_init(n, settings, 2, 3, 1024, 5000, 100);
    let host = connection::new_local_init(n, settings, 2, 3, 1024, 5000);
    write!(stdout, " {n}")?;
    told(stdout, made.answer, made.ring.size as usize)?;
    told(stdout, guest.answer, guest.conn.tx_buf.size as usize)?;
    told(stdout, host.answer, host.conn.tx_buf.size as usize)?;
    write!(stdout, ";")
}

fn told(stdout: &mut Stdout, answer: Answer, left: usize) -> io::Result<()> {
    write!(stdout, ": {} left {left}", defs::number_of(answer))
}

pub fn reading_slots(stdout: &mut Stdout) -> io::Result<()> {
    let mut ports = [0u64; MAX_CONNECTIONS + 1];
    let mut used = [0u8; MAX_CONNECTIONS + 1];
    let pending = [1u8; MAX_CONNECTIONS + 1];
    let times = [700u64; MAX_CONNECTIONS + 1];
    ports[MAX_CONNECTIONS - 1] = PORT_SPAN + 7;
    ports[MAX_CONNECTIONS] = 2 * PORT_SPAN + 7;
    used[MAX_CONNECTIONS - 1] = 1;
    used[MAX_CONNECTIONS] = 1;
    let mut twice = ports;
    twice[MAX_CONNECTIONS] = PORT_SPAN + 7;
    let table = Table {
        ports: &ports,
        used: &used,
        pending: &pending,
        times: &times,
    };
    write!(stdout, "slots")?;
    for (limit, left_out) in [(2, 512), (2, 1), (2, 0), (1, 1)] {
        slots(stdout, limit, table.past(left_out))?;
    }
    let twice = Table {
        ports: &twice,
        ..table
    };
    slots(stdout, 2, twice.past(1))?;
    writeln!(stdout)
}

#[derive(Clone, Copy)]
struct Table<'a> {
    ports: &'a [u64],
    used: &'a [u8],
    pending: &'a [u8],
    times: &'a [u64],
}

impl<'a> Table<'a> {
    // Without so many slots at the front.
    fn past(self, slots: usize) -> Table<'a> {
        Table {
            ports: self.ports.get(slots..).unwrap_or(&[]),
            used: self.used.get(slots..).unwrap_or(&[]),
            pending: self.pending.get(slots..).unwrap_or(&[]),
            times: self.times.get(slots..).unwrap_or(&[]),
        }
    }
}

// Both builds from a table, with this limit: the answer to each, how many are queued, and whether
// the queue is synced.
fn slots(stdout: &mut Stdout, limit: usize, table: Table<'_>) -> io::Result<()> {
    let Table {
        ports,
        used,
        pending,
        times,
    } = table;
    let rx = MuxerRxQ::from_conn_map(limit, ports, used, pending);
    let kill = MuxerKillQ::from_conn_map(limit, 699, ports, used, times);
    write!(stdout, " {}", ports.len())?;
    told(stdout, rx.answer, rx.queue.len)?;
    synced(stdout, rx.queue.synced)?;
    told(stdout, kill.answer, kill.queue.len)?;
    synced(stdout, kill.queue.synced)?;
    write!(stdout, ";")
}

fn synced(stdout: &mut Stdout, is: bool) -> io::Result<()> {
    write!(stdout, " synced")?;
    text::yes(stdout, is)
}

pub fn reading_q(stdout: &mut Stdout) -> io::Result<()> {
    write!(stdout, "Q")?;
    for n in [257, 512, 513] {
        limit(stdout, n)?;
    }
    writeln!(stdout)
}

// A queue: the answer, and the limit that it has.
fn limit(stdout: &mut Stdout, n: usize) -> io::Result<()> {
    let made = MuxerRxQ::new(n);
    write!(stdout, " {n}")?;
    told(stdout, made.answer, made.queue.limit)?;
    write!(stdout, ";")
}
