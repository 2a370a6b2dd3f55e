// The calls of both queues and their lines: what is asked, 01's number of the answer, the record
// that is left, and its first places.
use conn_map::PORT_SPAN;
use defs::limits::MAX_CONNECTIONS;
use defs::{Answer, Refusal};
use queue::{Item, Queue, Queued};
use std::io;
use std::io::{Stdout, Write};

// How many places a line shows.
const SHOWN: usize = 3;

// What each queue's lines begin with, and how its items are shown, after a blank.
pub trait Shown: Item {
    fn name() -> &'static str;

    fn show(self, stdout: &mut Stdout) -> io::Result<()>;
}

pub fn answered(stdout: &mut Stdout, answer: Answer) -> io::Result<()> {
    write!(stdout, " : {}", defs::number_of(answer))
}

// A queue's numbers and its first places, after a call on it.
pub fn left<T: Shown, const N: usize>(
    stdout: &mut Stdout,
    answer: Answer,
    queue: Queue<T, N>,
) -> io::Result<()> {
    answered(stdout, answer)?;
    let synced = if queue.synced { "synced" } else { "unsynced" };
    write!(stdout, " {} of {} {synced}", queue.len, queue.limit)?;
    for item in queue.q.iter().take(SHOWN) {
        item.show(stdout)?;
    }
    writeln!(stdout, " ")
}

// A look's word, whether it holds, and the look's answer.
pub fn told(stdout: &mut Stdout, word: &str, look: Result<bool, Refusal>) -> io::Result<()> {
    write!(stdout, " {word}")?;
    text::yes(stdout, look.unwrap_or(false))?;
    answered(stdout, look.and(Ok(())))
}

// A queue of this limit, just made.
pub fn made<T: Shown, const N: usize>(
    stdout: &mut Stdout,
    limit: usize,
    made: Queued<T, N>,
) -> io::Result<Queue<T, N>> {
    write!(stdout, "{} new {limit}", T::name())?;
    left(stdout, made.answer, made.queue)?;
    Ok(made.queue)
}

// The last place.
pub fn last<T: Shown, const N: usize>(stdout: &mut Stdout, queue: Queue<T, N>) -> io::Result<()> {
    if let Some(item) = queue.q.last() {
        write!(stdout, "{} place {}", T::name(), N - 1)?;
        item.show(stdout)?;
        writeln!(stdout, " ")?;
    }
    Ok(())
}

// As many slots as a table has at most: slot i has local port i.
pub fn many_ports() -> [u64; MAX_CONNECTIONS] {
    let mut ports = [0; MAX_CONNECTIONS];
    for (i, port) in ports.iter_mut().enumerate() {
        *port = (i as u64) * PORT_SPAN;
    }
    ports
}
