// What the readings share: a connection with 01's settings, the calls on it, and its words.
use connection::{Outcome, Settings, VsockConnection, VsockPacket};
use csm::ConnState;
use defs::limits::VSOCK_PKT_HDR_SIZE;
use defs::{StreamAnswer, StreamAnswers};
use packet::{VsockPacketHdr, uapi};
use std::io;
use std::io::{Stdout, Write};

// The settings of readings a to l: R, T, and both timeouts.
pub const SIZE: u32 = 16;

const THRESHOLD: u32 = 4;

pub const TIMEOUT: u64 = 2000;

fn settings() -> Settings {
    Settings {
        threshold: THRESHOLD,
        request_timeout: TIMEOUT,
        shutdown_timeout: TIMEOUT,
    }
}

// A connection that the guest opened, with so much space of its own.
pub fn opened(alloc: u32) -> VsockConnection {
    connection::new_peer_init(SIZE, settings(), 2, 3, 1024, 5000, alloc).conn
}

// One that the host opened.
pub fn opened_by_host() -> VsockConnection {
    connection::new_local_init(SIZE, settings(), 2, 3, 1024, 5000).conn
}

// A turn to speak at time 0, with a buffer of 0 bytes or none.
pub fn spoken(
    conn: VsockConnection,
    hdr: &mut [u8],
    present: bool,
    answer: StreamAnswer,
) -> Outcome {
    let mut buf = [0u8; 1];
    connection::recv_pkt(conn, hdr, present, &mut buf[..0], 0, answer, b"")
}

// The connection that such a turn leaves.
pub fn turn(
    conn: VsockConnection,
    hdr: &mut [u8],
    present: bool,
    answer: StreamAnswer,
) -> VsockConnection {
    spoken(conn, hdr, present, answer).conn
}

// The same, once the first turn has confirmed it.
pub fn established(alloc: u32) -> VsockConnection {
    let mut hdr = [0u8; VSOCK_PKT_HDR_SIZE];
    turn(opened(alloc), &mut hdr, false, StreamAnswer::WouldBlock)
}

// What the guest sends, when, and how many of its bytes the stream takes.
#[derive(Clone, Copy)]
pub struct Sending {
    pub now_ms: u64,
    pub op: u16,
    pub flags: u32,
    pub len: u32,
    pub taken: usize,
}

// Data at time 0.
pub fn data(len: u32, taken: usize) -> Sending {
    Sending {
        now_ms: 0,
        op: uapi::VSOCK_OP_RW,
        flags: 0,
        len,
        taken,
    }
}

pub fn sent(conn: VsockConnection, sending: Sending, storage: &mut [u8]) -> VsockConnection {
    let hdr = VsockPacketHdr {
        src_cid: 3,
        dst_cid: 2,
        src_port: 5000,
        dst_port: 1024,
        len: sending.len,
        type_: uapi::VSOCK_TYPE_STREAM,
        op: sending.op,
        flags: sending.flags,
        buf_alloc: 100,
        fwd_cnt: 0,
    };
    let mut bytes = [0u8; VSOCK_PKT_HDR_SIZE];
    let _ = packet::encode(hdr, &mut bytes);
    let answers = StreamAnswers {
        first: StreamAnswer::Count(sending.taken),
        second: StreamAnswer::WouldBlock,
    };
    let mut out = [0u8; 17];
    let pkt = VsockPacket {
        hdr: &bytes,
        present: true,
        buf: b"0123456789abcdefg",
    };
    let after = connection::send_pkt(conn, pkt, sending.now_ms, storage, answers, &mut out);
    after.unwrap_or(conn)
}

pub fn say_op(stdout: &mut Stdout, hdr: &[u8]) -> io::Result<()> {
    let Ok(said) = packet::decode(hdr) else {
        return Ok(());
    };
    write!(stdout, " op {}", said.op)
}

// The bare name, as in `run_connection`: the two share no crate that knows of connections.
pub fn say_state(stdout: &mut Stdout, conn: VsockConnection) -> io::Result<()> {
    let name = match conn.state {
        ConnState::LocalInit => "LocalInit",
        ConnState::PeerInit => "PeerInit",
        ConnState::Established => "Established",
        ConnState::LocalClosed => "LocalClosed",
        ConnState::PeerClosed(_, _) => "PeerClosed",
        ConnState::Killed => "Killed",
    };
    write!(stdout, " {name}")
}
