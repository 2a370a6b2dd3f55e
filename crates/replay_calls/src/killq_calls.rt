// The kill queue's entries, 41 to 49. The first run has the places; a table's ports are the second,
// its used marks the third, its times the fourth.
use crate::queue_record::{Placed, flag, left, put_found, queue_of, told, write};
use crate::{frame, slots};
use conn_map::ConnMapKey;
use muxer_killq::{KillQueue, MuxerKillQ, MuxerKillQItem};

pub fn call(entry: u8, head: &[u8], places: &[u8], ports: &[u8], used: &[u8], times: &[u8]) {
    match entry {
        41 => new(head),
        42 => from_conn_map(head, ports, used, times),
        43 => push(head, places),
        44 => pop(head, places),
        48 => eq(head),
        49 => peek(head, places),
        _ => look(entry, head, places),
    }
}

impl Placed for MuxerKillQItem {
    fn read(place: &[u8]) -> MuxerKillQItem {
        MuxerKillQItem {
            local_port: frame::u32_at(place, 4),
            peer_port: frame::u32_at(place, 8),
            kill_time: frame::u64_at(place, 12),
        }
    }

    fn write(self, place: &mut [u8]) {
        frame::put_u32(place, 4, self.local_port);
        frame::put_u32(place, 8, self.peer_port);
        frame::put_u64(place, 12, self.kill_time);
    }
}

fn new(head: &[u8]) {
    left(head, MuxerKillQ::new(frame::usize_at(head, 56)));
}

fn from_conn_map(head: &[u8], ports: &[u8], used: &[u8], times: &[u8]) {
    let keys = slots::numbers(ports);
    let n = slots::slots(ports.len(), &keys);
    let ends = slots::numbers(times);
    let m = slots::slots(times.len(), &ends);
    let limit = frame::usize_at(head, 56);
    let clock = frame::u64_at(head, 96);
    left(
        head,
        MuxerKillQ::from_conn_map(limit, clock, &keys[..n], used, &ends[..m]),
    );
}

fn push(head: &[u8], places: &[u8]) {
    let queue: MuxerKillQ = queue_of(head, places);
    let key = ConnMapKey {
        local_port: frame::u32_at(head, 28),
        peer_port: frame::u32_at(head, 32),
    };
    left(head, queue.push(key, frame::u64_at(head, 88)));
}

// The ports, or none, and the queue that is left.
fn pop(head: &[u8], places: &[u8]) {
    let queue: MuxerKillQ = queue_of(head, places);
    let popped = queue.pop(frame::u64_at(head, 96));
    let mut reply = frame::reply_to(head, popped.given.and(Ok(())));
    if let Ok(Some(key)) = popped.given {
        put_found(&mut reply, false, key.local_port, key.peer_port);
    }
    write(&mut reply, popped.queue);
}

// The front with its time, which stands at 88.
fn peek(head: &[u8], places: &[u8]) {
    let queue: MuxerKillQ = queue_of(head, places);
    let peeked = queue.peek();
    let mut reply = frame::reply_to(head, peeked.and(Ok(())));
    if let Ok(Some(item)) = peeked {
        put_found(&mut reply, false, item.local_port, item.peer_port);
        frame::put_u64(&mut reply, 88, item.kill_time);
    }
    write(&mut reply, queue);
}

// Two items: ports at 28 and 32 and a time at 88; ports at 36 and 40 and a time at 96.
fn eq(head: &[u8]) {
    let one = MuxerKillQItem {
        local_port: frame::u32_at(head, 28),
        peer_port: frame::u32_at(head, 32),
        kill_time: frame::u64_at(head, 88),
    };
    let other = MuxerKillQItem {
        local_port: frame::u32_at(head, 36),
        peer_port: frame::u32_at(head, 40),
        kill_time: frame::u64_at(head, 96),
    };
    flag(head, Ok(()), one.eq(other));
}

fn look(entry: u8, head: &[u8], places: &[u8]) {
    let queue: MuxerKillQ = queue_of(head, places);
    match entry {
        45 => told(head, queue.is_synced()),
        46 => told(head, queue.is_empty()),
        _ => told(head, queue.is_full()),
    }
}
