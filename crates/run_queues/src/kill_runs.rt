// Runs of the kill queue.
use crate::kill::{build, equal, look, new, pop, push};
use crate::shared::{last, many_ports};
use conn_map::{ConnMapKey, PORT_SPAN};
use defs::limits::{MAX_CLOCK_MS, MAX_CONNECTIONS, MAX_KILLQ_SIZE, MIN_KILLQ_SIZE};
use muxer_killq::{KillQueue, MuxerKillQ, MuxerKillQItem};
use std::io;
use std::io::Stdout;

pub fn limits(stdout: &mut Stdout) -> io::Result<()> {
    new(stdout, MIN_KILLQ_SIZE - 1)?;
    new(stdout, MIN_KILLQ_SIZE)?;
    new(stdout, MAX_KILLQ_SIZE)?;
    new(stdout, MAX_KILLQ_SIZE + 1)?;
    Ok(())
}

pub fn reading_i(stdout: &mut Stdout) -> io::Result<()> {
    let empty = new(stdout, 2)?;
    let a = push(stdout, empty, 1, 500)?;
    let b = pop(stdout, a, 500)?;
    let c = pop(stdout, b, 501)?;
    pop(stdout, c, 501)?;
    Ok(())
}

// Only the front is looked at: the item behind it waits, though its time has passed.
pub fn full(stdout: &mut Stdout) -> io::Result<()> {
    let empty = new(stdout, 2)?;
    let a = push(stdout, empty, 1, 900)?;
    let b = push(stdout, a, 2, 100)?;
    look(stdout, b)?;
    let c = push(stdout, b, 3, 800)?;
    look(stdout, c)?;
    let d = pop(stdout, c, 899)?;
    let e = pop(stdout, d, 901)?;
    let f = push(stdout, e, 3, 800)?;
    pop(stdout, f, MAX_CLOCK_MS + 1)?;
    let g = pop(stdout, f, MAX_CLOCK_MS)?;
    look(stdout, g)?;
    let longer = push(stdout, g, 3, 800)?;
    pop(stdout, longer, 801)?;
    let many = filled(stdout, MAX_KILLQ_SIZE - 1)?;
    let h = push(stdout, many, 8, u64::MAX)?;
    last(stdout, h)?;
    let shorter = pop(stdout, h, 501)?;
    last(stdout, shorter)?;
    let many = filled(stdout, MAX_KILLQ_SIZE)?;
    push(stdout, many, 8, u64::MAX)?;
    full_of_one(stdout)
}

// Of limit 1: the time that a peek shows is not looked at, and a push that is turned down unsyncs.
fn full_of_one(stdout: &mut Stdout) -> io::Result<()> {
    let empty = new(stdout, 1)?;
    let a = push(stdout, empty, 1, u64::MAX)?;
    look(stdout, a)?;
    pop(stdout, a, MAX_CLOCK_MS)?;
    let b = push(stdout, a, 2, 0)?;
    look(stdout, b)
}

// A queue of the largest limit with so many items pushed.
fn filled(stdout: &mut Stdout, n: usize) -> io::Result<MuxerKillQ> {
    let mut queue = new(stdout, MAX_KILLQ_SIZE)?;
    let key = ConnMapKey {
        local_port: 5,
        peer_port: 1,
    };
    for _ in 0..n {
        queue = queue.push(key, 500).queue;
    }
    Ok(queue)
}

// A stray item past the length, a length past the limit.
pub fn unsound(stdout: &mut Stdout) -> io::Result<()> {
    let empty = new(stdout, 2)?;
    let mut stray = push(stdout, empty, 1, 500)?;
    stray.q[2].kill_time = 7;
    let longer = push(stdout, stray, 2, 500)?;
    pop(stdout, longer, MAX_CLOCK_MS + 1)?;
    look(stdout, stray)?;
    let empty = new(stdout, 1)?;
    let mut long = push(stdout, empty, 1, 500)?;
    long.limit = 0;
    let longer = push(stdout, long, 2, 500)?;
    pop(stdout, longer, 501)?;
    Ok(())
}

// Equal times, one that has passed, one that is now, one that is none; the peer port is 7.
pub fn tables(stdout: &mut Stdout) -> io::Result<()> {
    let ports = [
        PORT_SPAN + 7,
        2 * PORT_SPAN + 7,
        3 * PORT_SPAN + 7,
        4 * PORT_SPAN + 7,
        5 * PORT_SPAN + 7,
        PORT_SPAN + 7,
    ];
    let times = [700, 500, 700, 600, 0, 900];
    let used = [1, 1, 1, 1, 1, 0];
    let all = [1; 6];
    for limit in 0..4 {
        build(stdout, limit, 500, &ports, &used, &times)?;
    }
    build(stdout, 4, 499, &ports, &used, &times)?;
    build(stdout, MAX_KILLQ_SIZE, 700, &ports, &used, &times)?;
    build(stdout, MAX_KILLQ_SIZE + 1, 500, &ports, &used, &times)?;
    build(stdout, 3, 500, &ports, &all, &times)?;
    build(stdout, 3, 500, &ports, &used, &times[..5])?;
    build(stdout, 3, MAX_CLOCK_MS, &ports, &used, &times)?;
    build(stdout, 3, MAX_CLOCK_MS + 1, &ports, &used, &times)?;
    build(stdout, 0, MAX_CLOCK_MS + 1, &ports, &used, &times)?;
    wide(stdout)
}

// As many slots as a table may have, all of one time; then as many of them as the queue holds.
fn wide(stdout: &mut Stdout) -> io::Result<()> {
    let ports = many_ports();
    let used = [1; MAX_CONNECTIONS];
    let times = [700; MAX_CONNECTIONS];
    let at = MAX_CONNECTIONS - MAX_KILLQ_SIZE;
    let built = build(stdout, MAX_KILLQ_SIZE, 699, &ports, &used, &times)?;
    last(stdout, built)?;
    let built = build(
        stdout,
        MAX_KILLQ_SIZE,
        699,
        &ports[at..],
        &used[at..],
        &times[at..],
    )?;
    last(stdout, built)?;
    build(stdout, MAX_KILLQ_SIZE, 700, &ports, &used, &times)?;
    Ok(())
}

pub fn equality(stdout: &mut Stdout) -> io::Result<()> {
    alike(stdout, 1, 100, 110)?;
    alike(stdout, 1, 110, 100)?;
    alike(stdout, 1, 100, 111)?;
    alike(stdout, 1, 111, 100)?;
    alike(stdout, 2, 100, 100)
}

// An item of port 1 at a time, and one of a port at another.
fn alike(stdout: &mut Stdout, local_port: u32, time: u64, other: u64) -> io::Result<()> {
    let a = MuxerKillQItem {
        local_port: 1,
        peer_port: 1,
        kill_time: time,
    };
    let b = MuxerKillQItem {
        local_port,
        peer_port: 1,
        kill_time: other,
    };
    equal(stdout, a, b)
}
