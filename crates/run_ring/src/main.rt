// Runs a ring of 16 bytes across the end of its storage and across 2^32, with short counts,
// would-blocks, failures and refusals, and prints a line for each call: its input, 01's number of
// the answer, the record that is left, and the bytes.
#![tactic(auto)]

use defs::limits::{MAX_PKT_BUF_SIZE, MAX_RING_SIZE, MIN_RING_SIZE};
use defs::{Answer, StreamAnswer, StreamAnswers};
use std::io;
use std::io::{Stdout, Write};
use txbuf::{Flushed, TxBuf};

// The ring of most runs.
const SIZE: usize = 16;

// A ring that the longest push fills, and the largest that a program here holds (02, 2026-10).
const LARGE: usize = MAX_PKT_BUF_SIZE;

// Six bytes before 2^32.
const SHORT_OF_WRAP: u32 = 4294967290;

// The stream's answers besides a count.
const BLOCKS: StreamAnswer = StreamAnswer::WouldBlock;

const FAILS: StreamAnswer = StreamAnswer::Failed;

fn main(rt: HostRuntime) -> io::Result<()> {
    let mut stdout = rt.stdout();
    sizes(&mut stdout)?;
    across_the_end(&mut stdout)?;
    refusals(&mut stdout)?;
    large(&mut stdout)
}

// ---- calls, each with its line

// A ring over its storage.
#[derive(Drop)]
struct Bench<'a> {
    ring: TxBuf,
    storage: &'a mut [u8],
}

impl Bench<'_> {
    // The storage is shown by its first bytes.
    fn push(&mut self, stdout: &mut Stdout, src: &[u8]) -> io::Result<()> {
        write!(stdout, "push {}", src.len())?;
        let pushed = self.ring.push(self.storage, src);
        self.ring = pushed.unwrap_or(self.ring);
        left(stdout, pushed.and(Ok(())), self.ring)?;
        stored(stdout, self.storage)
    }

    // The outgoing buffer starts as `room` bytes 2e.
    fn flush(
        &mut self,
        stdout: &mut Stdout,
        first: StreamAnswer,
        second: StreamAnswer,
        room: usize,
    ) -> io::Result<()> {
        let mut out = [b'.'; SIZE];
        write!(stdout, "flush by")?;
        by(stdout, first)?;
        by(stdout, second)?;
        write!(stdout, " room {room}")?;
        let n = text::fitting(room, &out);
        let answers = StreamAnswers { first, second };
        let flushed = self.ring.flush_to(self.storage, answers, &mut out[..n]);
        let kept = Flushed {
            count: 0,
            ring: self.ring,
        };
        let Flushed { count, ring } = flushed.unwrap_or(kept);
        self.ring = ring;
        left(stdout, flushed.and(Ok(())), ring)?;
        write!(stdout, " count {count} out ")?;
        text::bytes(stdout, &out)?;
        writeln!(stdout)
    }

    fn look(&mut self, stdout: &mut Stdout) -> io::Result<()> {
        seen(stdout, self.ring, self.storage)
    }
}

fn left(stdout: &mut Stdout, answer: Answer, ring: TxBuf) -> io::Result<()> {
    let number = defs::number_of(answer);
    write!(stdout, " : {number} head {} tail {}", ring.head, ring.tail)
}

// As `run_connection`'s, in the words of this output.
fn by(stdout: &mut Stdout, answer: StreamAnswer) -> io::Result<()> {
    match answer {
        StreamAnswer::Count(n) => write!(stdout, " {n}"),
        StreamAnswer::WouldBlock => write!(stdout, " block"),
        StreamAnswer::Failed => write!(stdout, " fail"),
    }
}

fn stored(stdout: &mut Stdout, storage: &[u8]) -> io::Result<()> {
    write!(stdout, " storage ")?;
    text::bytes(stdout, text::front(storage, SIZE))?;
    writeln!(stdout)
}

// The first piece, with dots up to the ring's size.
fn seen(stdout: &mut Stdout, ring: TxBuf, storage: &[u8]) -> io::Result<()> {
    let len = ring.len().unwrap_or(0);
    let empty = if ring.is_empty().unwrap_or(false) {
        " empty"
    } else {
        ""
    };
    let piece = ring.first_piece(storage);
    let mut digits = [b'.'; 2 * SIZE];
    text::hex(piece, &mut digits);
    write!(stdout, "len {len}{empty} first piece {} ", piece.len())?;
    text::say(stdout, &digits)?;
    writeln!(stdout)
}

// ---- runs

fn sizes(stdout: &mut Stdout) -> io::Result<()> {
    let asked = [
        0,
        MIN_RING_SIZE / 2,
        MIN_RING_SIZE - 1,
        MIN_RING_SIZE,
        MIN_RING_SIZE + 1,
        24,
        2 * MIN_RING_SIZE,
        LARGE as u32,
        2 * LARGE as u32,
        MAX_RING_SIZE / 2,
        MAX_RING_SIZE - 1,
        MAX_RING_SIZE,
        MAX_RING_SIZE + 1,
        2 * MAX_RING_SIZE,
    ];
    for size in asked {
        let opened = TxBuf::new(size);
        write!(stdout, "new {size}")?;
        left(stdout, opened.answer, opened.ring)?;
        writeln!(stdout, " size {} ", opened.ring.size)?;
    }
    Ok(())
}

// Six bytes before 2^32, where the offset is 10: the storage's end and the counters' wrap are met
// at once.
fn across_the_end(stdout: &mut Stdout) -> io::Result<()> {
    let mut storage = [0u8; SIZE];
    let mut bench = Bench {
        ring: TxBuf {
            size: SIZE as u32,
            head: SHORT_OF_WRAP,
            tail: SHORT_OF_WRAP,
        },
        storage: &mut storage,
    };
    empty_then_ten(stdout, &mut bench)?;
    in_short_counts(stdout, &mut bench)?;
    full_and_drained(stdout, &mut bench)?;
    fifteen_more(stdout, &mut bench)?;
    in_two_pieces(stdout, &mut bench)
}

// An empty ring offers nothing, so no answer is reached; ten bytes go round the end.
fn empty_then_ten(stdout: &mut Stdout, bench: &mut Bench<'_>) -> io::Result<()> {
    bench.look(stdout)?;
    bench.flush(stdout, StreamAnswer::Count(9), FAILS, 16)?;
    bench.push(stdout, b"0123456789")?;
    bench.look(stdout)
}

// A first write that blocks or fails is answer 10; a second one that fails leaves the first count.
fn in_short_counts(stdout: &mut Stdout, bench: &mut Bench<'_>) -> io::Result<()> {
    let nine = StreamAnswer::Count(9);
    bench.flush(stdout, BLOCKS, nine, 16)?;
    bench.flush(stdout, FAILS, nine, 16)?;
    bench.flush(stdout, StreamAnswer::Count(2), nine, 16)?;
    bench.flush(stdout, StreamAnswer::Count(4), FAILS, 16)?;
    bench.look(stdout)
}

// Filled to the last byte, one byte more turned away, drained in one piece and then in two.
fn full_and_drained(stdout: &mut Stdout, bench: &mut Bench<'_>) -> io::Result<()> {
    bench.push(stdout, b"abcdefghijkl")?;
    bench.look(stdout)?;
    bench.push(stdout, b"!")?;
    bench.flush(stdout, StreamAnswer::Count(16), StreamAnswer::Count(9), 16)?;
    bench.look(stdout)
}

// One piece again: a count over it is refused, its own count takes it whole.
fn fifteen_more(stdout: &mut Stdout, bench: &mut Bench<'_>) -> io::Result<()> {
    bench.push(stdout, b"ABCDEFGHIJKLMNO")?;
    bench.flush(stdout, StreamAnswer::Count(16), StreamAnswer::Count(0), 16)?;
    bench.flush(stdout, StreamAnswer::Count(15), BLOCKS, 15)?;
    bench.look(stdout)
}

// A push of nothing, and three bytes of which the last two lie at the start.
fn in_two_pieces(stdout: &mut Stdout, bench: &mut Bench<'_>) -> io::Result<()> {
    bench.push(stdout, b"")?;
    bench.push(stdout, b"xyz")?;
    bench.flush(stdout, StreamAnswer::Count(1), StreamAnswer::Count(2), 3)?;
    bench.look(stdout)
}

// Ten bytes held from offset 10, so that the pieces are six and four.
fn refusals(stdout: &mut Stdout) -> io::Result<()> {
    let mut storage = *b"6789......012345";
    let mut bench = Bench {
        ring: TxBuf {
            size: SIZE as u32,
            head: 20,
            tail: 10,
        },
        storage: &mut storage,
    };
    let ring = bench.ring;
    too_much(stdout, &mut bench)?;
    no_room(stdout, &mut bench)?;
    bench.ring = ring;
    bench.push(stdout, b"1234567")?;
    unsound(stdout, &mut bench)
}

// Counts over what was offered, also where there is no room for them: 5 before 6.
fn too_much(stdout: &mut Stdout, bench: &mut Bench<'_>) -> io::Result<()> {
    let six = StreamAnswer::Count(6);
    bench.flush(stdout, StreamAnswer::Count(7), StreamAnswer::Count(0), 16)?;
    bench.flush(stdout, six, StreamAnswer::Count(5), 16)?;
    bench.flush(stdout, six, StreamAnswer::Count(5), 3)
}

// Room for one byte less than was taken, and for just as much; a count that isn't reached needs
// none. Each from the ring as it was.
fn no_room(stdout: &mut Stdout, bench: &mut Bench<'_>) -> io::Result<()> {
    let ring = bench.ring;
    let six = StreamAnswer::Count(6);
    let runs = [
        (six, StreamAnswer::Count(4), 9),
        (six, FAILS, 5),
        (six, BLOCKS, 6),
        (six, StreamAnswer::Count(4), 10),
        (StreamAnswer::Count(0), StreamAnswer::Count(99), 0),
    ];
    for (first, second, room) in runs {
        bench.ring = ring;
        bench.flush(stdout, first, second, room)?;
    }
    Ok(())
}

// More held than the size, and a storage that is not the size.
fn unsound(stdout: &mut Stdout, bench: &mut Bench<'_>) -> io::Result<()> {
    bench.ring = TxBuf {
        size: SIZE as u32,
        head: 20,
        tail: 3,
    };
    bench.push(stdout, b"1")?;
    bench.flush(stdout, StreamAnswer::Count(1), FAILS, 16)?;
    bench.look(stdout)?;
    bench.ring = TxBuf {
        size: 2 * SIZE as u32,
        ..TxBuf::default()
    };
    bench.push(stdout, b"1")?;
    bench.flush(stdout, FAILS, FAILS, 16)
}

// Filled across its end in one push; one byte more is 9, and a source of one byte more is 4.
fn large(stdout: &mut Stdout) -> io::Result<()> {
    let mut storage = [0u8; LARGE];
    let src = [7u8; MAX_PKT_BUF_SIZE + 1];
    let mut bench = Bench {
        ring: TxBuf {
            size: LARGE as u32,
            head: SHORT_OF_WRAP,
            tail: SHORT_OF_WRAP,
        },
        storage: &mut storage,
    };
    bench.push(stdout, &src[..LARGE])?;
    bench.push(stdout, b"1")?;
    bench.push(stdout, &src)?;
    bench.look(stdout)
}
