// The ring's entries, 1 to 7. The storage is the first run, a push's bytes the fourth, the
// outgoing buffer the fifth; the piece that is handed back is the fourth of the reply.
use crate::frame;
use defs::{Answer, Refusal};
use txbuf::{Flushed, TxBuf};

pub fn ring_of(head: &[u8]) -> TxBuf {
    TxBuf {
        size: frame::u32_at(head, 12),
        head: frame::u32_at(head, 16),
        tail: frame::u32_at(head, 20),
    }
}

pub fn put_ring(reply: &mut [u8], ring: TxBuf) {
    frame::put_u32(reply, 12, ring.size);
    frame::put_u32(reply, 16, ring.head);
    frame::put_u32(reply, 20, ring.tail);
}

pub fn call(entry: u8, head: &[u8], storage: &mut [u8], bytes: &[u8], out: &mut [u8]) {
    match entry {
        1 => new(head, storage, out),
        2 => len(head, storage, out),
        3 => is_empty(head, storage, out),
        4 => push(head, storage, bytes, out),
        5 => flush_to(head, storage, out),
        6 => first_piece(head, storage, out),
        _ => second_piece(head, storage, out),
    }
}

fn write(
    head: &[u8],
    answer: Answer,
    value: u64,
    ring: TxBuf,
    storage: &[u8],
    piece: &[u8],
    out: &[u8],
) {
    let mut reply = frame::reply_to(head, answer);
    put_ring(&mut reply, ring);
    frame::put_u64(&mut reply, 104, value);
    frame::write(&mut reply, storage, b"", b"", piece, out);
}

fn new(head: &[u8], storage: &[u8], out: &[u8]) {
    let opened = TxBuf::new(ring_of(head).size);
    write(head, opened.answer, 0, opened.ring, storage, b"", out);
}

// A look leaves the ring as it is; a yes is 1.
fn look(head: &[u8], value: Result<u64, Refusal>, storage: &[u8], out: &[u8]) {
    let answer = value.and(Ok(()));
    let told = value.unwrap_or(0);
    write(head, answer, told, ring_of(head), storage, b"", out);
}

fn len(head: &[u8], storage: &[u8], out: &[u8]) {
    let len = ring_of(head).len();
    look(head, len.map(|n| n as u64), storage, out);
}

fn is_empty(head: &[u8], storage: &[u8], out: &[u8]) {
    let empty = ring_of(head).is_empty();
    look(head, empty.map(u64::from), storage, out);
}

// A refused push or flush leaves the ring as it was.
fn push(head: &[u8], storage: &mut [u8], bytes: &[u8], out: &[u8]) {
    let ring = ring_of(head);
    let pushed = ring.push(storage, bytes);
    let left = pushed.unwrap_or(ring);
    write(head, pushed.and(Ok(())), 0, left, storage, b"", out);
}

fn flush_to(head: &[u8], storage: &[u8], out: &mut [u8]) {
    let ring = ring_of(head);
    let flushed = ring.flush_to(storage, frame::answers(head), out);
    let left = flushed.unwrap_or(Flushed { count: 0, ring });
    let answer = flushed.and(Ok(()));
    write(
        head,
        answer,
        left.count as u64,
        left.ring,
        storage,
        b"",
        out,
    );
}

fn first_piece(head: &[u8], storage: &[u8], out: &[u8]) {
    let ring = ring_of(head);
    write(
        head,
        Ok(()),
        0,
        ring,
        storage,
        ring.first_piece(storage),
        out,
    );
}

fn second_piece(head: &[u8], storage: &[u8], out: &[u8]) {
    let ring = ring_of(head);
    write(
        head,
        Ok(()),
        0,
        ring,
        storage,
        ring.second_piece(storage),
        out,
    );
}
