// Packets of the guest's.
use crate::show;
use crate::standing::{OVER, SIZE, established, sevens, standing};
use connection::{VsockConnection, VsockPacket};
use csm::ConnState;
use defs::limits::{MAX_CLOCK_MS, MAX_PKT_BUF_SIZE, VSOCK_PKT_HDR_SIZE};
use defs::{StreamAnswer, StreamAnswers};
use packet::{VsockPacketHdr, uapi};
use std::io;
use std::io::{Stdout, Write};
use text::front;

// What a packet is sent with besides its connection. The buffer holds bytes 07.
#[derive(Clone, Copy)]
pub struct Sending {
    pub hdr: usize,
    pub op: u16,
    pub flags: u32,
    pub len: u32,
    pub present: bool,
    pub buf: usize,
    pub now_ms: u64,
    pub storage: usize,
    pub room: usize,
}

// Eight bytes of data in a buffer of ten.
pub fn data() -> Sending {
    Sending {
        hdr: VSOCK_PKT_HDR_SIZE,
        op: uapi::VSOCK_OP_RW,
        flags: 0,
        len: 8,
        present: true,
        buf: 10,
        now_ms: 1000,
        storage: SIZE,
        room: SIZE,
    }
}

// The storage is shown by its first bytes.
pub fn send(
    stdout: &mut Stdout,
    conn: VsockConnection,
    s: Sending,
    first: StreamAnswer,
) -> io::Result<VsockConnection> {
    write!(stdout, "send hdr {} op {} len {}", s.hdr, s.op, s.len)?;
    show::buffer(stdout, s.present, s.buf)?;
    write!(
        stdout,
        " clock {} storage {} room {}",
        s.now_ms, s.storage, s.room
    )?;
    show::by(stdout, first)?;
    let mut storage = [b'.'; SIZE + 1];
    let mut out = [b'.'; SIZE];
    let next = delivered(stdout, conn, s, first, &mut storage, &mut out)?;
    show::bytes(stdout, "storage", front(&storage, SIZE))?;
    show::bytes(stdout, "out", &out)?;
    writeln!(stdout)?;
    Ok(next)
}

fn delivered(
    stdout: &mut Stdout,
    conn: VsockConnection,
    s: Sending,
    first: StreamAnswer,
    storage: &mut [u8],
    out: &mut [u8],
) -> io::Result<VsockConnection> {
    let buf = sevens();
    let mut hdr = [0u8; VSOCK_PKT_HDR_SIZE + 1];
    heading(s, &mut hdr[..VSOCK_PKT_HDR_SIZE]);
    let answers = StreamAnswers {
        first,
        second: StreamAnswer::Count(99),
    };
    let t = text::fitting(s.storage, storage);
    let o = text::fitting(s.room, out);
    let pkt = VsockPacket {
        hdr: front(&hdr, s.hdr),
        present: s.present,
        buf: front(&buf, s.buf),
    };
    let after = connection::send_pkt(
        conn,
        pkt,
        s.now_ms,
        &mut storage[..t],
        answers,
        &mut out[..o],
    );
    // A refused packet leaves the connection as it was.
    let next = after.unwrap_or(conn);
    show::answered(stdout, after)?;
    show::record(stdout, next)?;
    show::timer(stdout, next)?;
    Ok(next)
}

// The header of a packet, with a space of 200 bytes.
fn heading(s: Sending, hdr: &mut [u8]) {
    let pkt = VsockPacketHdr {
        src_cid: 3,
        dst_cid: 2,
        src_port: 5000,
        dst_port: 1024,
        len: s.len,
        type_: uapi::VSOCK_TYPE_STREAM,
        op: s.op,
        flags: s.flags,
        buf_alloc: 200,
        fwd_cnt: 0,
    };
    let _ = packet::encode(pkt, hdr);
}

pub fn clocks(stdout: &mut Stdout) -> io::Result<()> {
    for now_ms in [MAX_CLOCK_MS, MAX_CLOCK_MS + 1] {
        let s = Sending { now_ms, ..data() };
        send(stdout, established(), s, StreamAnswer::Count(8))?;
    }
    Ok(())
}

// No header, one of a byte less and one of a byte more; beside the second a bad clock, beside the
// third a bad storage too: the lowest number.
pub fn headers(stdout: &mut Stdout) -> io::Result<()> {
    let none = Sending { hdr: 0, ..data() };
    let short = Sending {
        hdr: VSOCK_PKT_HDR_SIZE - 1,
        now_ms: MAX_CLOCK_MS + 1,
        ..data()
    };
    let long = Sending {
        hdr: VSOCK_PKT_HDR_SIZE + 1,
        storage: SIZE - 1,
        ..short
    };
    for s in [none, short, long] {
        send(stdout, established(), s, StreamAnswer::Count(8))?;
    }
    Ok(())
}

// `len` over the buffer is refused in any state, but not where there is no buffer.
pub fn lengths(stdout: &mut Stdout) -> io::Result<()> {
    let ten = StreamAnswer::Count(10);
    let whole = Sending { len: 10, ..data() };
    let over = Sending { len: 11, ..data() };
    let absent = Sending {
        present: false,
        ..over
    };
    send(stdout, established(), whole, ten)?;
    for state in [
        ConnState::Established,
        ConnState::Killed,
        ConnState::PeerClosed(true, true),
    ] {
        send(stdout, standing(state), over, ten)?;
    }
    send(stdout, established(), absent, ten)?;
    large(stdout, absent)
}

// The largest buffer and one byte more; the second is ignored where it doesn't count.
fn large(stdout: &mut Stdout, sending: Sending) -> io::Result<()> {
    for (buf, present) in [(MAX_PKT_BUF_SIZE, true), (OVER, true), (OVER, false)] {
        let s = Sending {
            op: uapi::VSOCK_OP_CREDIT_REQUEST,
            present,
            buf,
            ..sending
        };
        send(stdout, established(), s, StreamAnswer::Failed)?;
    }
    Ok(())
}

// Ops that have no rule: credit is stored, and nothing more.
pub fn ops(stdout: &mut Stdout) -> io::Result<()> {
    for op in [0, 8, u16::MAX] {
        let s = Sending { op, ..data() };
        send(stdout, established(), s, StreamAnswer::Failed)?;
    }
    Ok(())
}

// Counts up to what was offered and over it, room for them and not; a failure kills, also of a
// write of no bytes, a would-block doesn't.
pub fn answers(stdout: &mut Stdout) -> io::Result<()> {
    for count in [3, 9] {
        send(stdout, established(), data(), StreamAnswer::Count(count))?;
    }
    let tight = Sending { room: 7, ..data() };
    for answer in [
        StreamAnswer::Count(8),
        StreamAnswer::Count(9),
        StreamAnswer::Count(7),
        StreamAnswer::WouldBlock,
        StreamAnswer::Failed,
    ] {
        send(stdout, established(), tight, answer)?;
    }
    let empty = Sending {
        len: 0,
        buf: 0,
        ..tight
    };
    send(stdout, established(), empty, StreamAnswer::Failed)?;
    Ok(())
}

// A storage of one byte less and one more than the ring's size. In a ring that holds bytes no
// write is made, so no answer is looked at; and it is full at 16.
pub fn storages(stdout: &mut Stdout) -> io::Result<()> {
    for storage in [SIZE - 1, SIZE + 1] {
        let s = Sending { storage, ..data() };
        send(stdout, established(), s, StreamAnswer::Count(8))?;
    }
    let held = send(stdout, established(), data(), StreamAnswer::Count(0))?;
    let full = send(stdout, held, data(), StreamAnswer::Count(99))?;
    let none = Sending { len: 0, ..data() };
    let still = send(stdout, full, none, StreamAnswer::Failed)?;
    let one = Sending { len: 1, ..data() };
    send(stdout, still, one, StreamAnswer::Failed)?;
    Ok(())
}

// More held than the ring's size, a threshold over it, a timeout of 0.
pub fn unsound(stdout: &mut Stdout) -> io::Result<()> {
    let mut over = established();
    over.tx_buf.head = 17;
    let mut threshold = established();
    threshold.settings.threshold = 17;
    let mut timeout = established();
    timeout.settings.shutdown_timeout = 0;
    for conn in [over, threshold, timeout] {
        send(stdout, conn, data(), StreamAnswer::Count(8))?;
    }
    Ok(())
}
