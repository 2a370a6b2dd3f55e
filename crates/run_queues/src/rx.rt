// Calls on the RX queue, each with its line. An item is shown as r or c and its local and peer port.
use crate::shared::{Shown, answered, left, made, told};
use muxer_rxq::{MuxerRx, MuxerRxQ, RxQueue};
use std::io;
use std::io::{Stdout, Write};

impl Shown for MuxerRx {
    fn name() -> &'static str {
        "rx"
    }

    fn show(self, stdout: &mut Stdout) -> io::Result<()> {
        let kind = if self.rst { "r" } else { "c" };
        write!(stdout, " {kind}{}/{}", self.local_port, self.peer_port)
    }
}

pub fn new(stdout: &mut Stdout, limit: usize) -> io::Result<MuxerRxQ> {
    made(stdout, limit, MuxerRxQ::new(limit))
}

pub fn push(
    stdout: &mut Stdout,
    queue: MuxerRxQ,
    rst: bool,
    local_port: u32,
) -> io::Result<MuxerRxQ> {
    let rx = MuxerRx {
        rst,
        local_port,
        peer_port: 1,
    };
    write!(stdout, "rx push")?;
    rx.show(stdout)?;
    let pushed = queue.push(rx);
    left(stdout, pushed.answer, pushed.queue)?;
    Ok(pushed.queue)
}

pub fn pop(stdout: &mut Stdout, queue: MuxerRxQ) -> io::Result<MuxerRxQ> {
    let popped = queue.pop();
    let front = popped.given.unwrap_or(None);
    write!(stdout, "rx pop")?;
    text::yes(stdout, front.is_some())?;
    front.unwrap_or_default().show(stdout)?;
    left(stdout, popped.given.and(Ok(())), popped.queue)?;
    Ok(popped.queue)
}

pub fn look(stdout: &mut Stdout, queue: MuxerRxQ) -> io::Result<()> {
    let len = queue.len();
    let front = queue.peek();
    write!(stdout, "rx look")?;
    told(stdout, "synced", queue.is_synced())?;
    write!(stdout, " len {}", len.unwrap_or(0))?;
    answered(stdout, len.and(Ok(())))?;
    told(stdout, "empty", queue.is_empty())?;
    told(stdout, "full", queue.is_full())?;
    told(stdout, "front", front.map(|item| item.is_some()))?;
    front.unwrap_or(None).unwrap_or_default().show(stdout)?;
    writeln!(stdout, " ")
}

pub fn build(
    stdout: &mut Stdout,
    limit: usize,
    ports: &[u64],
    used: &[u8],
    pending: &[u8],
) -> io::Result<MuxerRxQ> {
    write!(stdout, "rx build {limit} slots {}", ports.len())?;
    let built = MuxerRxQ::from_conn_map(limit, ports, used, pending);
    left(stdout, built.answer, built.queue)?;
    Ok(built.queue)
}
