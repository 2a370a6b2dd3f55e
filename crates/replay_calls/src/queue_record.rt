// A queue's record in a frame: limit at 56, length at 64, sync at 4, and its run of places, 20 bytes
// each: whether it is an RST, at 4 and 8 the ports, at 12 a time.
use crate::frame;
use defs::limits::MAX_RXQ_SIZE;
use defs::{Answer, Refusal};
use queue::{Item, Queue, Queued};

// The bytes of a place, and of all places of the larger queue.
const PLACE: usize = 20;

const PLACES: usize = PLACE * MAX_RXQ_SIZE;

// An item, as its place has it.
pub trait Placed: Item {
    fn read(place: &[u8]) -> Self;

    fn write(self, place: &mut [u8]);
}

// The queue of a frame and a run of places; a place that the run doesn't have holds the zero item.
pub fn queue_of<T: Placed, const N: usize>(head: &[u8], places: &[u8]) -> Queue<T, N> {
    let mut q = [T::default(); N];
    for (item, place) in q.iter_mut().zip(places.chunks(PLACE)) {
        *item = T::read(place);
    }
    Queue {
        q,
        len: frame::usize_at(head, 64),
        limit: frame::usize_at(head, 56),
        synced: frame::yes_at(head, 4),
    }
}

// Writes a reply with the queue in it; the places are written up to the last that is not the zero
// item.
pub fn write<T: Placed, const N: usize>(reply: &mut [u8], queue: Queue<T, N>) {
    frame::put_u64(reply, 56, queue.limit as u64);
    frame::put_u64(reply, 64, queue.len as u64);
    frame::put_yes(reply, 4, queue.synced);
    let mut run = [0u8; PLACES];
    for (item, place) in queue.q.iter().zip(run.chunks_mut(PLACE)) {
        item.write(place);
    }
    let n = text::fitting(whole(written(&run)), &run);
    frame::write(reply, &run[..n], b"", b"", b"", b"");
}

// A queue that was made or changed, and the answer.
pub fn left<T: Placed, const N: usize>(head: &[u8], queued: Queued<T, N>) {
    let mut reply = frame::reply_to(head, queued.answer);
    write(&mut reply, queued.queue);
}

// The number of bytes up to the last that is not 0.
fn written(bytes: &[u8]) -> usize {
    match bytes.iter().rposition(|byte| *byte != 0) {
        Some(at) => at + 1,
        None => 0,
    }
}

// The bytes of the places that so many bytes reach into.
fn whole(bytes: usize) -> usize {
    bytes.min(PLACES).next_multiple_of(PLACE)
}

// An item that was found stands at 28 and 32, an RST at 5.
pub fn put_found(reply: &mut [u8], rst: bool, local_port: u32, peer_port: u32) {
    frame::put_yes(reply, 9, true);
    frame::put_yes(reply, 5, rst);
    frame::put_u32(reply, 28, local_port);
    frame::put_u32(reply, 32, peer_port);
}

// A yes or no stands at 9.
pub fn flag(head: &[u8], answer: Answer, holds: bool) {
    let mut reply = frame::reply_to(head, answer);
    frame::put_yes(&mut reply, 9, holds);
    frame::write(&mut reply, b"", b"", b"", b"", b"");
}

// What a look tells.
pub fn told(head: &[u8], seen: Result<bool, Refusal>) {
    flag(head, seen.and(Ok(())), seen.unwrap_or(false));
}
