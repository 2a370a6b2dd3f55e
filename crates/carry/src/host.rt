// The host's end: the stream, which takes what it takes.
use crate::moods::Mood;
use crate::trip::{Given, Trip, count_of, more_taken};
use crate::{account, waiting};
use defs::{StreamAnswer, StreamAnswers};
use std::io;
use std::io::Write;
use std::rt::Runtime;

// An out-event, where the ring holds anything.
pub fn drain<R: Runtime>(given: &Given<'_, R>, trip: Trip, storage: &[u8], out: &mut [u8]) -> Trip {
    match connection::get_polled_evset(trip.conn) {
        Ok(polled) if polled.writable => flush(given, trip, storage, out),
        _ => trip,
    }
}

// A mood for each piece that is offered; the second is offered only where the first was taken whole.
fn flush<R: Runtime>(given: &Given<'_, R>, trip: Trip, storage: &[u8], out: &mut [u8]) -> Trip {
    let piece = connection::notify_offered(trip.conn, true, storage);
    let rest = connection::notify_offered_next(trip.conn, true, storage);
    let first = offer(given.rt, piece, given.moods.at(trip.writes));
    let mut writes = given.moods.after(trip.writes);
    let mut second = StreamAnswer::WouldBlock;
    if count_of(first) == piece.len() && !rest.is_empty() {
        second = offer(given.rt, rest, given.moods.at(writes));
        writes = given.moods.after(writes);
    }
    let answers = StreamAnswers { first, second };
    let after = connection::notify(trip.conn, false, true, storage, answers, out);
    Trip {
        writes,
        taken: more_taken(more_taken(trip.taken, first), second),
        ..trip.after(after)
    }
}

// A real write of the bytes, in this mood, and its true answer.
pub fn offer<R: Runtime>(rt: &R, piece: &[u8], mood: Mood) -> StreamAnswer {
    match mood {
        Mood::Any => written(rt, piece),
        Mood::Pause => StreamAnswer::WouldBlock,
        Mood::Most(bytes) => written(rt, text::front(piece, bytes as usize)),
    }
}

fn written<R: Runtime>(rt: &R, piece: &[u8]) -> StreamAnswer {
    match io::writer(rt).write(piece) {
        Ok(n) => StreamAnswer::Count(n),
        Err(e) => stopped(rt, e),
    }
}

// A stream that would block is given time; one that fails says why.
fn stopped<R: Runtime>(rt: &R, error: io::Error) -> StreamAnswer {
    if waiting::would_block(error) {
        waiting::for_output();
        return StreamAnswer::WouldBlock;
    }
    account::failure(rt, "carry: the stream failed", error);
    StreamAnswer::Failed
}
