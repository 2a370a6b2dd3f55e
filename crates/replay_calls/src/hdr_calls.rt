// The header's entries, 51 and 52. Its bytes are the second run. The fields stand at the places
// that a connection's record has.
use crate::frame;
use packet::VsockPacketHdr;

pub fn call(entry: u8, head: &[u8], hdr: &mut [u8]) {
    match entry {
        51 => read(head, hdr),
        _ => write(head, hdr),
    }
}

fn read(head: &[u8], bytes: &[u8]) {
    let decoded = packet::decode(bytes);
    let mut reply = frame::reply_to(head, decoded.map(|_| ()));
    if let Ok(hdr) = decoded {
        put_addresses(&mut reply, hdr);
        put_numbers(&mut reply, hdr);
        put_credit(&mut reply, hdr);
    }
    frame::write(&mut reply, b"", bytes, b"", b"", b"");
}

fn put_addresses(reply: &mut [u8], hdr: VsockPacketHdr) {
    frame::put_u64(reply, 72, hdr.src_cid);
    frame::put_u64(reply, 80, hdr.dst_cid);
    frame::put_u32(reply, 28, hdr.src_port);
    frame::put_u32(reply, 32, hdr.dst_port);
}

fn put_numbers(reply: &mut [u8], hdr: VsockPacketHdr) {
    frame::put_u32(reply, 12, hdr.len);
    frame::put_u32(reply, 16, hdr.type_ as u32);
    frame::put_u32(reply, 20, hdr.op as u32);
}

fn put_credit(reply: &mut [u8], hdr: VsockPacketHdr) {
    frame::put_u32(reply, 24, hdr.flags);
    frame::put_u32(reply, 40, hdr.buf_alloc);
    frame::put_u32(reply, 36, hdr.fwd_cnt);
}

// The low bits: `as` alone is for numbers that fit, and `try_from` would refuse the others.
fn narrow(n: u32) -> u16 {
    (n % 65536) as u16
}

fn hdr_of(head: &[u8]) -> VsockPacketHdr {
    VsockPacketHdr {
        src_cid: frame::u64_at(head, 72),
        dst_cid: frame::u64_at(head, 80),
        src_port: frame::u32_at(head, 28),
        dst_port: frame::u32_at(head, 32),
        len: frame::u32_at(head, 12),
        type_: narrow(frame::u32_at(head, 16)),
        op: narrow(frame::u32_at(head, 20)),
        flags: frame::u32_at(head, 24),
        buf_alloc: frame::u32_at(head, 40),
        fwd_cnt: frame::u32_at(head, 36),
    }
}

// The fields, with one flag more.
fn write(head: &[u8], bytes: &mut [u8]) {
    let hdr = hdr_of(head).set_flag(frame::u32_at(head, 48));
    let answer = packet::encode(hdr, bytes);
    let mut reply = frame::reply_to(head, answer);
    frame::write(&mut reply, b"", bytes, b"", b"", b"");
}
