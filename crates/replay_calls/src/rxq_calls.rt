// The RX queue's entries, 31 to 39. The first run has the places; a table's ports are the second,
// its used marks the third, what is pending the fourth.
use crate::queue_record::{Placed, left, put_found, queue_of, told, write};
use crate::{frame, slots};
use defs::Refusal;
use muxer_rxq::{MuxerRx, MuxerRxQ, RxQueue};

pub fn call(entry: u8, head: &[u8], places: &[u8], ports: &[u8], used: &[u8], pending: &[u8]) {
    match entry {
        31 => new(head),
        32 => from_conn_map(head, ports, used, pending),
        33 => push(head, places),
        34 => peek(head, places),
        35 => pop(head, places),
        _ => look(entry, head, places),
    }
}

impl Placed for MuxerRx {
    fn read(place: &[u8]) -> MuxerRx {
        MuxerRx {
            rst: frame::yes_at(place, 0),
            local_port: frame::u32_at(place, 4),
            peer_port: frame::u32_at(place, 8),
        }
    }

    fn write(self, place: &mut [u8]) {
        frame::put_yes(place, 0, self.rst);
        frame::put_u32(place, 4, self.local_port);
        frame::put_u32(place, 8, self.peer_port);
    }
}

// The front item, or none, and the queue that is left.
fn shown(head: &[u8], front: Result<Option<MuxerRx>, Refusal>, queue: MuxerRxQ) {
    let mut reply = frame::reply_to(head, front.and(Ok(())));
    if let Ok(Some(rx)) = front {
        put_found(&mut reply, rx.rst, rx.local_port, rx.peer_port);
    }
    write(&mut reply, queue);
}

fn new(head: &[u8]) {
    left(head, MuxerRxQ::new(frame::usize_at(head, 56)));
}

fn from_conn_map(head: &[u8], ports: &[u8], used: &[u8], pending: &[u8]) {
    let keys = slots::numbers(ports);
    let n = slots::slots(ports.len(), &keys);
    let limit = frame::usize_at(head, 56);
    left(
        head,
        MuxerRxQ::from_conn_map(limit, &keys[..n], used, pending),
    );
}

fn push(head: &[u8], places: &[u8]) {
    let queue: MuxerRxQ = queue_of(head, places);
    let rx = MuxerRx {
        rst: frame::yes_at(head, 5),
        local_port: frame::u32_at(head, 28),
        peer_port: frame::u32_at(head, 32),
    };
    left(head, queue.push(rx));
}

fn peek(head: &[u8], places: &[u8]) {
    let queue: MuxerRxQ = queue_of(head, places);
    shown(head, queue.peek(), queue);
}

fn pop(head: &[u8], places: &[u8]) {
    let queue: MuxerRxQ = queue_of(head, places);
    let popped = queue.pop();
    shown(head, popped.given, popped.queue);
}

fn look(entry: u8, head: &[u8], places: &[u8]) {
    let queue: MuxerRxQ = queue_of(head, places);
    match entry {
        36 => told(head, queue.is_synced()),
        37 => counted(head, queue.len()),
        38 => told(head, queue.is_empty()),
        _ => told(head, queue.is_full()),
    }
}

// A length stands at 104.
fn counted(head: &[u8], len: Result<usize, Refusal>) {
    let mut reply = frame::reply_to(head, len.and(Ok(())));
    frame::put_u64(&mut reply, 104, len.unwrap_or(0) as u64);
    frame::write(&mut reply, b"", b"", b"", b"", b"");
}
