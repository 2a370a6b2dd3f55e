// Bad input and input at the limits, run through the code: a line each, with 01's number of the
// answer and whether anything changed.
#![tactic(auto)]

use defs::limits::{self, MAX_PKT_BUF_SIZE, VSOCK_PKT_HDR_SIZE};
use std::fmt::Display;
use std::io;
use std::io::{Stdout, Write};

// The ring whose thresholds are tried.
const RING: u32 = 16;

// Longer than what the copying leaf copies in one run.
const LONG: usize = 70000;

fn main(rt: HostRuntime) -> io::Result<()> {
    let mut stdout = rt.stdout();
    headers(&mut stdout)?;
    buffers(&mut stdout)?;
    byte_values(&mut stdout)?;
    ladder(&mut stdout)?;
    settings(&mut stdout)?;
    copies(&mut stdout)
}

// ---- the header

fn headers(stdout: &mut Stdout) -> io::Result<()> {
    decoded(stdout, b"")?;
    decoded(stdout, &[b'Z'; VSOCK_PKT_HDR_SIZE - 1])?;
    decoded(stdout, &[b'Z'; VSOCK_PKT_HDR_SIZE])?;
    decoded(stdout, &[b'Z'; VSOCK_PKT_HDR_SIZE + 1])?;
    decoded(stdout, &[b'Z'; MAX_PKT_BUF_SIZE])
}

fn decoded(stdout: &mut Stdout, bytes: &[u8]) -> io::Result<()> {
    let number = defs::number_of(packet::decode(bytes).and(Ok(())));
    writeln!(stdout, "decode of {} bytes: {number}", bytes.len())
}

fn buffers(stdout: &mut Stdout) -> io::Result<()> {
    encoded(stdout, &mut [], b"")?;
    encoded(
        stdout,
        &mut [b'Z'; VSOCK_PKT_HDR_SIZE - 1],
        &[b'Z'; VSOCK_PKT_HDR_SIZE - 1],
    )?;
    encoded(
        stdout,
        &mut [b'Z'; VSOCK_PKT_HDR_SIZE],
        &[b'Z'; VSOCK_PKT_HDR_SIZE],
    )?;
    encoded(
        stdout,
        &mut [b'Z'; VSOCK_PKT_HDR_SIZE + 1],
        &[b'Z'; VSOCK_PKT_HDR_SIZE + 1],
    )?;
    encoded(
        stdout,
        &mut [b'Z'; MAX_PKT_BUF_SIZE],
        &[b'Z'; MAX_PKT_BUF_SIZE],
    )
}

fn encoded(stdout: &mut Stdout, out: &mut [u8], was: &[u8]) -> io::Result<()> {
    let Ok(hdr) = packet::decode(&[0u8; VSOCK_PKT_HDR_SIZE]) else {
        return Ok(());
    };
    let number = defs::number_of(packet::encode(hdr, out));
    let changed = if &*out == was { "unchanged" } else { "changed" };
    writeln!(
        stdout,
        "encode into {} bytes: {number}, {changed}",
        out.len()
    )
}

// A header of one byte value throughout comes back as it was: how many do, from 0 on.
fn byte_values(stdout: &mut Stdout) -> io::Result<()> {
    let count = (0..=u8::MAX).take_while(|byte| comes_back(*byte)).count();
    writeln!(stdout, "byte values that come back: {count}")
}

fn comes_back(byte: u8) -> bool {
    let bytes = [byte; VSOCK_PKT_HDR_SIZE];
    let mut out = [0u8; VSOCK_PKT_HDR_SIZE];
    let Ok(hdr) = packet::decode(&bytes) else {
        return false;
    };
    let _ = packet::encode(hdr, &mut out);
    bytes == out
}

// ---- the ladder

fn ladder(stdout: &mut Stdout) -> io::Result<()> {
    write!(stdout, "refusals of the 64 sets of tests:")?;
    for set in 0..64 {
        write!(stdout, " {}", refusal(set))?;
    }
    writeln!(stdout)
}

// Of the tests 1 to 6 those whose bit is set hold, the lowest bit for test 1.
fn refusal(set: u32) -> u8 {
    let holds = |bit: u32| set & bit != 0;
    let first = defs::door(holds(1), holds(2), holds(4), holds(8));
    defs::number_of(first.and(defs::late(holds(16), holds(32))))
}

// ---- limits

fn tests<N: Copy + Display, F: Fn(N) -> bool>(
    stdout: &mut Stdout,
    values: &[N],
    within: F,
) -> io::Result<()>
    requires { F.IsAlwaysCallable within }
{
    for n in values {
        let holds = if within(*n) { "yes" } else { "no" };
        write!(stdout, " {n} {holds};")?;
    }
    writeln!(stdout)
}

fn settings(stdout: &mut Stdout) -> io::Result<()> {
    ring_sizes(stdout)?;
    let thresholds = [
        limits::MIN_THRESHOLD - 1,
        limits::MIN_THRESHOLD,
        RING,
        RING + 1,
    ];
    write!(stdout, "threshold of a ring of {RING}:")?;
    tests(stdout, &thresholds, |n| limits::is_threshold(n, RING))?;
    let timeouts = [
        limits::MIN_TIMEOUT_MS - 1,
        limits::MIN_TIMEOUT_MS,
        limits::MAX_TIMEOUT_MS,
        limits::MAX_TIMEOUT_MS + 1,
    ];
    write!(stdout, "timeout:")?;
    tests(stdout, &timeouts, limits::is_timeout)?;
    sizes(stdout)?;
    write!(stdout, "clock:")?;
    tests(
        stdout,
        &[0, limits::MAX_CLOCK_MS, limits::MAX_CLOCK_MS + 1],
        limits::is_clock,
    )
}

fn ring_sizes(stdout: &mut Stdout) -> io::Result<()> {
    let sizes = [
        0,
        limits::MIN_RING_SIZE / 2,
        limits::MIN_RING_SIZE,
        24,
        limits::MAX_RING_SIZE / 8,
        limits::MAX_RING_SIZE / 2,
        limits::MAX_RING_SIZE - 1,
        limits::MAX_RING_SIZE,
        limits::MAX_RING_SIZE + 1,
        2 * limits::MAX_RING_SIZE,
    ];
    write!(stdout, "ring size:")?;
    tests(stdout, &sizes, limits::is_ring_size)
}

fn sizes(stdout: &mut Stdout) -> io::Result<()> {
    let rxq = [
        limits::MIN_RXQ_SIZE - 1,
        limits::MIN_RXQ_SIZE,
        limits::MAX_RXQ_SIZE / 2 + 1,
        limits::MAX_RXQ_SIZE,
        limits::MAX_RXQ_SIZE + 1,
    ];
    write!(stdout, "RX queue:")?;
    tests(stdout, &rxq, limits::is_rxq_limit)?;
    let killq = [
        limits::MIN_KILLQ_SIZE - 1,
        limits::MIN_KILLQ_SIZE,
        limits::MAX_KILLQ_SIZE,
        limits::MAX_KILLQ_SIZE + 1,
    ];
    write!(stdout, "kill queue:")?;
    tests(stdout, &killq, limits::is_killq_limit)?;
    let slots = [
        limits::MIN_CONNECTIONS - 1,
        limits::MIN_CONNECTIONS,
        limits::MAX_CONNECTIONS / 2 + 1,
        limits::MAX_CONNECTIONS,
        limits::MAX_CONNECTIONS + 1,
    ];
    write!(stdout, "table:")?;
    tests(stdout, &slots, limits::is_slot_count)?;
    let packet = [0, MAX_PKT_BUF_SIZE, MAX_PKT_BUF_SIZE + 1];
    write!(stdout, "packet:")?;
    tests(stdout, &packet, limits::is_packet_length)
}

// ---- copies

// Shorter and longer sources, and one of more than a run of the leaf, marked at the runs' ends.
fn copies(stdout: &mut Stdout) -> io::Result<()> {
    let mut front = [1u8, 2, 3, 4];
    defs::copy(&mut front, b"\x07\x08");
    write!(stdout, "a copy of 2 bytes to 4: ")?;
    shown(stdout, front)?;
    defs::copy(&mut front, b"\x05\x06\x07\x08\x09");
    write!(stdout, "a copy of 5 bytes to 4: ")?;
    shown(stdout, front)?;
    defs::copy(&mut front, b"");
    write!(stdout, "a copy of none to 4: ")?;
    shown(stdout, front)?;
    let src = marked();
    let mut dst = [0u8; LONG];
    defs::copy(&mut dst, &src);
    write!(stdout, "a copy of {LONG} bytes is the source:")?;
    tests(stdout, &[LONG], |_| dst == src)
}

fn shown(stdout: &mut Stdout, bytes: [u8; 4]) -> io::Result<()> {
    text::bytes(stdout, &bytes)?;
    writeln!(stdout)
}

fn marked() -> [u8; LONG] {
    let mut bytes = [7u8; LONG];
    bytes[0] = 1;
    bytes[MAX_PKT_BUF_SIZE - 1] = 2;
    bytes[MAX_PKT_BUF_SIZE] = 3;
    bytes[LONG - 1] = 4;
    bytes
}
