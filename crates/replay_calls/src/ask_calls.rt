// What a call on a connection would answer of 1 to 4, and offer to the stream or ask of it: entries
// 24 to 27. The runs are those of the call. A reply has nothing but what it says: the door's number,
// at 9 whether there is a write or a read, at 104 how many bytes a read asks for, in the fourth run
// what is offered first and in the fifth what is offered next.
use crate::conn_record::conn_of;
use crate::frame;
use connection::VsockPacket;

pub fn call(entry: u8, head: &[u8], storage: &[u8], hdr: &[u8], buf: &[u8], bytes: &[u8]) {
    match entry {
        24 => send(head, storage, hdr, buf),
        25 => recv(head, hdr, buf),
        26 => notify(head, storage),
        _ => raw(head, bytes),
    }
}

fn send(head: &[u8], storage: &[u8], hdr: &[u8], buf: &[u8]) {
    let conn = conn_of(head);
    let present = frame::yes_at(head, 9);
    let clock = frame::u64_at(head, 96);
    let pkt = VsockPacket { hdr, present, buf };
    let door = connection::send_door(conn, pkt, clock, storage);
    let writes = connection::send_writes(conn, pkt, clock, storage);
    let offered = connection::send_offered(conn, pkt, clock, storage);
    let mut reply = frame::reply_to(head, door);
    frame::put_yes(&mut reply, 9, writes);
    frame::write(&mut reply, b"", b"", b"", offered, b"");
}

fn recv(head: &[u8], hdr: &[u8], buf: &[u8]) {
    let conn = conn_of(head);
    let present = frame::yes_at(head, 9);
    let clock = frame::u64_at(head, 96);
    let door = connection::recv_door(conn, hdr, present, buf, clock);
    let asked = connection::recv_asked(conn, hdr, present, buf, clock);
    let mut reply = frame::reply_to(head, door);
    let count = asked.unwrap_or(None);
    frame::put_yes(&mut reply, 9, count.is_some());
    frame::put_u64(&mut reply, 104, count.unwrap_or(0) as u64);
    frame::write(&mut reply, b"", b"", b"", b"", b"");
}

fn notify(head: &[u8], storage: &[u8]) {
    let conn = conn_of(head);
    let writable = frame::yes_at(head, 11);
    let door = connection::notify_door(conn, storage);
    let first = connection::notify_offered(conn, writable, storage);
    let next = connection::notify_offered_next(conn, writable, storage);
    let mut reply = frame::reply_to(head, door);
    frame::write(&mut reply, b"", b"", b"", first, next);
}

fn raw(head: &[u8], bytes: &[u8]) {
    let conn = conn_of(head);
    let door = connection::raw_door(conn, bytes);
    let offered = connection::raw_offered(conn, bytes);
    let mut reply = frame::reply_to(head, door);
    frame::write(&mut reply, b"", b"", b"", offered, b"");
}
