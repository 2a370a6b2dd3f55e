// Calls on the kill queue, each with its line. An item is shown as its local and peer port and its time.
use crate::shared::{Shown, left, made, told};
use conn_map::ConnMapKey;
use muxer_killq::{KillQueue, MuxerKillQ, MuxerKillQItem};
use std::io;
use std::io::{Stdout, Write};

impl Shown for MuxerKillQItem {
    fn name() -> &'static str {
        "kill"
    }

    fn show(self, stdout: &mut Stdout) -> io::Result<()> {
        write!(
            stdout,
            " {}/{} at {}",
            self.local_port, self.peer_port, self.kill_time
        )
    }
}

pub fn new(stdout: &mut Stdout, limit: usize) -> io::Result<MuxerKillQ> {
    made(stdout, limit, MuxerKillQ::new(limit))
}

pub fn push(
    stdout: &mut Stdout,
    queue: MuxerKillQ,
    local_port: u32,
    kill_time: u64,
) -> io::Result<MuxerKillQ> {
    let key = ConnMapKey {
        local_port,
        peer_port: 1,
    };
    write!(stdout, "kill push {local_port}/1 at {kill_time}")?;
    let pushed = queue.push(key, kill_time);
    left(stdout, pushed.answer, pushed.queue)?;
    Ok(pushed.queue)
}

pub fn pop(stdout: &mut Stdout, queue: MuxerKillQ, clock: u64) -> io::Result<MuxerKillQ> {
    let popped = queue.pop(clock);
    let front = popped.given.unwrap_or(None);
    let key = front.unwrap_or_default();
    write!(stdout, "kill pop at {clock}")?;
    text::yes(stdout, front.is_some())?;
    write!(stdout, " {}/{}", key.local_port, key.peer_port)?;
    left(stdout, popped.given.and(Ok(())), popped.queue)?;
    Ok(popped.queue)
}

pub fn look(stdout: &mut Stdout, queue: MuxerKillQ) -> io::Result<()> {
    let front = queue.peek();
    write!(stdout, "kill look")?;
    told(stdout, "synced", queue.is_synced())?;
    told(stdout, "empty", queue.is_empty())?;
    told(stdout, "full", queue.is_full())?;
    told(stdout, "front", front.map(|item| item.is_some()))?;
    front.unwrap_or(None).unwrap_or_default().show(stdout)?;
    writeln!(stdout, " ")
}

pub fn build(
    stdout: &mut Stdout,
    limit: usize,
    clock: u64,
    ports: &[u64],
    used: &[u8],
    times: &[u64],
) -> io::Result<MuxerKillQ> {
    write!(
        stdout,
        "kill build {limit} at {clock} slots {}",
        ports.len()
    )?;
    let built = MuxerKillQ::from_conn_map(limit, clock, ports, used, times);
    left(stdout, built.answer, built.queue)?;
    Ok(built.queue)
}

pub fn equal(stdout: &mut Stdout, a: MuxerKillQItem, b: MuxerKillQItem) -> io::Result<()> {
    write!(stdout, "equal")?;
    a.show(stdout)?;
    b.show(stdout)?;
    text::yes(stdout, a.eq(b))?;
    writeln!(stdout, " ")
}
