// Runs of the RX queue.
use crate::rx::{build, look, new, pop, push};
use crate::shared::{last, many_ports};
use conn_map::PORT_SPAN;
use defs::limits::{MAX_CONNECTIONS, MAX_RXQ_SIZE, MIN_RXQ_SIZE};
use muxer_rxq::{MuxerRx, MuxerRxQ, RxQueue};
use std::io;
use std::io::Stdout;

pub fn limits(stdout: &mut Stdout) -> io::Result<()> {
    new(stdout, MIN_RXQ_SIZE - 1)?;
    new(stdout, MIN_RXQ_SIZE)?;
    new(stdout, MAX_RXQ_SIZE / 2 + 1)?;
    new(stdout, MAX_RXQ_SIZE)?;
    new(stdout, MAX_RXQ_SIZE + 1)?;
    Ok(())
}

pub fn reading_j(stdout: &mut Stdout) -> io::Result<()> {
    let empty = new(stdout, 2)?;
    let a = push(stdout, empty, false, 1)?;
    let b = push(stdout, a, false, 2)?;
    look(stdout, b)?;
    let c = push(stdout, b, true, 8)?;
    let d = push(stdout, c, true, 9)?;
    let e = push(stdout, d, true, 10)?;
    look(stdout, e)?;
    let f = pop(stdout, e)?;
    look(stdout, f)?;
    let g = push(stdout, f, true, 10)?;
    let h = push(stdout, g, false, 3)?;
    let i = pop(stdout, h)?;
    let j = pop(stdout, i)?;
    look(stdout, j)?;
    let k = push(stdout, j, true, 10)?;
    push(stdout, k, false, 3)?;
    Ok(())
}

// Of limit 1, and full of RSTs while still in sync: a connection unsyncs it.
pub fn full(stdout: &mut Stdout) -> io::Result<()> {
    let empty = new(stdout, 1)?;
    let a = push(stdout, empty, true, 8)?;
    let b = push(stdout, a, true, 9)?;
    look(stdout, b)?;
    let c = push(stdout, b, false, 1)?;
    look(stdout, c)?;
    let many = filled(stdout, MAX_RXQ_SIZE - 1, true)?;
    let d = push(stdout, many, false, 1)?;
    look(stdout, d)?;
    last(stdout, d)?;
    let e = push(stdout, d, true, 8)?;
    last(stdout, e)?;
    push(stdout, e, true, 9)?;
    let shorter = pop(stdout, e)?;
    last(stdout, shorter)?;
    let many = filled(stdout, MAX_RXQ_SIZE, true)?;
    push(stdout, many, true, 9)?;
    let many = filled(stdout, MAX_RXQ_SIZE, false)?;
    push(stdout, many, false, 1)?;
    Ok(())
}

// A queue of the largest limit with so many items pushed.
fn filled(stdout: &mut Stdout, n: usize, rst: bool) -> io::Result<MuxerRxQ> {
    let mut queue = new(stdout, MAX_RXQ_SIZE)?;
    let rx = MuxerRx {
        rst,
        local_port: 5,
        peer_port: 1,
    };
    for _ in 0..n {
        queue = queue.push(rx).queue;
    }
    Ok(queue)
}

// A stray item past the length, a length past the limit, a limit past the largest.
pub fn unsound(stdout: &mut Stdout) -> io::Result<()> {
    let empty = new(stdout, 2)?;
    let mut stray = push(stdout, empty, false, 1)?;
    stray.q[2].peer_port = 7;
    let longer = push(stdout, stray, true, 8)?;
    pop(stdout, longer)?;
    look(stdout, stray)?;
    let empty = new(stdout, 1)?;
    let mut long = push(stdout, empty, true, 8)?;
    long.limit = 0;
    let longer = push(stdout, long, true, 9)?;
    pop(stdout, longer)?;
    let empty = new(stdout, MAX_RXQ_SIZE)?;
    let mut wide = push(stdout, empty, true, 8)?;
    wide.limit = MAX_RXQ_SIZE + 1;
    let longer = push(stdout, wide, true, 9)?;
    pop(stdout, longer)?;
    Ok(())
}

// The local ports of the slots are 1, 2, 1 and 3, their peer port 7; slot 2 is not used in the first table.
pub fn tables(stdout: &mut Stdout) -> io::Result<()> {
    let ports = [
        PORT_SPAN + 7,
        2 * PORT_SPAN + 7,
        PORT_SPAN + 7,
        3 * PORT_SPAN + 7,
    ];
    let used = [1, 1, 0, 1];
    let every = [1; 4];
    let all = [1; 4];
    let some = [0, 1, 1, 1];
    for limit in 0..4 {
        build(stdout, limit, &ports, &used, &all)?;
    }
    build(stdout, MAX_RXQ_SIZE + 1, &ports, &used, &all)?;
    build(stdout, 2, &ports, &used, &some)?;
    build(stdout, 3, &ports, &every, &all)?;
    for n in [2, 1, 0] {
        build(stdout, 3, &ports[..n], &every[..n], &all[..n])?;
    }
    build(stdout, 3, &ports, &used, &all[..3])?;
    build(stdout, 3, &ports, &used[..3], &all)?;
    wide(stdout)
}

// As many slots as a table may have, one more, and one over half as many, of which few are used.
fn wide(stdout: &mut Stdout) -> io::Result<()> {
    let ports = [0; MAX_CONNECTIONS + 1];
    let mut used = [0; MAX_CONNECTIONS + 1];
    let pending = [1; MAX_CONNECTIONS + 1];
    let n = MAX_CONNECTIONS;
    used[n - 1] = 1;
    build(stdout, MAX_RXQ_SIZE, &ports[..n], &used[..n], &pending[..n])?;
    build(stdout, MAX_RXQ_SIZE, &ports, &used, &pending)?;
    build(
        stdout,
        MAX_RXQ_SIZE,
        &ports[n / 2..],
        &used[n / 2..],
        &pending[n / 2..],
    )?;
    used[0] = 1;
    build(stdout, MAX_RXQ_SIZE, &ports[..n], &used[..n], &pending[..n])?;
    many(stdout)
}

// As many slots as a table may have, all used and pending; then as many of them as the queue holds.
fn many(stdout: &mut Stdout) -> io::Result<()> {
    let ports = many_ports();
    let used = [1; MAX_CONNECTIONS];
    let pending = [1; MAX_CONNECTIONS];
    let at = MAX_CONNECTIONS - MAX_RXQ_SIZE;
    let built = build(stdout, MAX_RXQ_SIZE, &ports, &used, &pending)?;
    last(stdout, built)?;
    let built = build(
        stdout,
        MAX_RXQ_SIZE,
        &ports[at..],
        &used[at..],
        &pending[at..],
    )?;
    last(stdout, built)
}
