// Openings, by the guest and by the host, with settings on both sides of each limit.
use crate::show::{answered, state, timer};
use connection::{Outcome, Settings};
use defs::limits::{MAX_RING_SIZE, MAX_TIMEOUT_MS, MIN_RING_SIZE, MIN_THRESHOLD, MIN_TIMEOUT_MS};
use std::io;
use std::io::{Stdout, Write};

pub fn openings(stdout: &mut Stdout) -> io::Result<()> {
    sizes(stdout)?;
    thresholds(stdout)?;
    timeouts(stdout)
}

fn sizes(stdout: &mut Stdout) -> io::Result<()> {
    let sizes = [
        (MIN_RING_SIZE / 2, MIN_THRESHOLD, MIN_TIMEOUT_MS),
        (MIN_RING_SIZE, MIN_THRESHOLD, MIN_TIMEOUT_MS),
        (24, MIN_THRESHOLD, MIN_TIMEOUT_MS),
        (MAX_RING_SIZE / 8, MIN_THRESHOLD, MIN_TIMEOUT_MS),
        (MAX_RING_SIZE - 1, MIN_THRESHOLD, MIN_TIMEOUT_MS),
        (MAX_RING_SIZE, MAX_RING_SIZE, MAX_TIMEOUT_MS),
        (MAX_RING_SIZE + 1, MIN_THRESHOLD, MIN_TIMEOUT_MS),
        (2 * MAX_RING_SIZE, MIN_THRESHOLD, MIN_TIMEOUT_MS),
    ];
    for (size, threshold, timeout) in sizes {
        open(stdout, size, threshold, timeout, timeout)?;
    }
    Ok(())
}

fn thresholds(stdout: &mut Stdout) -> io::Result<()> {
    for threshold in [MIN_THRESHOLD - 1, MIN_RING_SIZE, MIN_RING_SIZE + 1] {
        open(
            stdout,
            MIN_RING_SIZE,
            threshold,
            MIN_TIMEOUT_MS,
            MIN_TIMEOUT_MS,
        )?;
    }
    Ok(())
}

fn timeouts(stdout: &mut Stdout) -> io::Result<()> {
    let timeouts = [
        (MIN_TIMEOUT_MS - 1, MIN_TIMEOUT_MS),
        (MAX_TIMEOUT_MS + 1, MIN_TIMEOUT_MS),
        (MIN_TIMEOUT_MS, MIN_TIMEOUT_MS - 1),
        (MIN_TIMEOUT_MS, MAX_TIMEOUT_MS + 1),
    ];
    for (request, shutdown) in timeouts {
        open(stdout, MIN_RING_SIZE, MIN_THRESHOLD, request, shutdown)?;
    }
    Ok(())
}

fn open(
    stdout: &mut Stdout,
    size: u32,
    threshold: u32,
    request: u64,
    shutdown: u64,
) -> io::Result<()> {
    let settings = Settings {
        threshold,
        request_timeout: request,
        shutdown_timeout: shutdown,
    };
    write!(stdout, "open {size} {threshold} {request} {shutdown}")?;
    let guest = connection::new_peer_init(size, settings, 2, 3, 1024, 5000, 100);
    opened(stdout, guest)?;
    let host = connection::new_local_init(size, settings, 2, 3, 1024, 5000);
    opened(stdout, host)?;
    writeln!(stdout)
}

fn opened(stdout: &mut Stdout, opening: Outcome) -> io::Result<()> {
    answered(stdout, opening.answer)?;
    state(stdout, opening.conn)?;
    let size = opening.conn.tx_buf.size;
    write!(stdout, " size {size} port {}", opening.conn.local_port)?;
    timer(stdout, opening.conn)
}
