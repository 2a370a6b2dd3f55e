// What the protocol itself can lose at a close (docs/DIFFERENCES.md): a guest sends 60,000 bytes and
// closes both ways while the host's reader stalls past the shutdown timer. The core ends the
// connection, and what its ring still holds is never handed on; nothing of it is lost unseen, for
// it is counted as held.
#![tactic(auto)]

use connection::{Settings, VsockConnection, VsockPacket};
use defs::limits::VSOCK_PKT_HDR_SIZE;
use defs::{StreamAnswer, StreamAnswers};
use packet::{VsockPacketHdr, uapi};
use std::io;
use std::io::{Stdout, Write};

const RING: u32 = 65536;

const SENT: u32 = 60000;

// As many bytes as the reader takes before it stalls.
const TAKEN: usize = 32640;

const CLOSED_AT: u64 = 1000;

const BOTH_WAYS: u32 = uapi::VSOCK_FLAGS_SHUTDOWN_RCV | uapi::VSOCK_FLAGS_SHUTDOWN_SEND;

const TIMEOUT: u64 = 2000;

const STALLS: StreamAnswers = StreamAnswers {
    first: StreamAnswer::WouldBlock,
    second: StreamAnswer::WouldBlock,
};

fn main(rt: HostRuntime) -> io::Result<()> {
    let mut stdout = rt.stdout();
    let mut storage = [0u8; RING as usize];
    let data = [0u8; RING as usize];
    let mut out = [0u8; RING as usize];
    let conn = confirmed(opened());
    let takes = StreamAnswers {
        first: StreamAnswer::Count(TAKEN),
        ..STALLS
    };
    let brought = VsockPacket {
        hdr: &heading(uapi::VSOCK_OP_RW, 0, SENT),
        present: true,
        buf: &data[..SENT as usize],
    };
    let conn = packet(conn, brought, &mut storage, takes, &mut out);
    let closes = VsockPacket {
        hdr: &heading(uapi::VSOCK_OP_SHUTDOWN, BOTH_WAYS, 0),
        present: true,
        buf: b"",
    };
    let conn = packet(conn, closes, &mut storage, STALLS, &mut out);
    let taken = conn.fwd_cnt;
    let held = conn.tx_buf.used();
    writeln!(stdout, "sent {SENT}, taken {taken}, held {held}")?;
    let waiting = connection::notify(conn, false, true, &storage, STALLS, &mut out);
    ends(&mut stdout, waiting.unwrap_or(conn))
}

// The timer runs out, the host kills the connection, and the guest is reset.
fn ends(stdout: &mut Stdout, conn: VsockConnection) -> io::Result<()> {
    write!(stdout, "expired just before the timer")?;
    text::yes(stdout, expired(conn, CLOSED_AT + TIMEOUT - 1))?;
    write!(stdout, ", at it")?;
    text::yes(stdout, expired(conn, CLOSED_AT + TIMEOUT))?;
    writeln!(stdout)?;
    let killed = connection::kill(conn).unwrap_or(conn);
    let mut hdr = [0u8; VSOCK_PKT_HDR_SIZE];
    let last = turn(killed, &mut hdr);
    let op = op_of(&hdr);
    let lost = last.tx_buf.used();
    writeln!(
        stdout,
        "the last packet says op {op}, bytes never handed on {lost}"
    )
}

fn op_of(hdr: &[u8]) -> u16 {
    packet::decode(hdr).map_or(0, |said| said.op)
}

fn expired(conn: VsockConnection, now_ms: u64) -> bool {
    connection::has_expired(conn, now_ms).unwrap_or(false)
}

fn opened() -> VsockConnection {
    let settings = Settings {
        threshold: RING / 2,
        request_timeout: TIMEOUT,
        shutdown_timeout: TIMEOUT,
    };
    connection::new_peer_init(RING, settings, 2, 3, 1024, 5000, RING).conn
}

// The first turn to speak is the RESPONSE.
fn confirmed(conn: VsockConnection) -> VsockConnection {
    let mut hdr = [0u8; VSOCK_PKT_HDR_SIZE];
    turn(conn, &mut hdr)
}

fn turn(conn: VsockConnection, hdr: &mut [u8]) -> VsockConnection {
    let nothing = StreamAnswer::WouldBlock;
    connection::recv_pkt(conn, hdr, false, &mut [], CLOSED_AT, nothing, b"").conn
}

// A packet of the guest's; a refused one leaves the connection as it was.
fn packet(
    conn: VsockConnection,
    pkt: VsockPacket<'_, '_>,
    storage: &mut [u8],
    answers: StreamAnswers,
    out: &mut [u8],
) -> VsockConnection {
    connection::send_pkt(conn, pkt, CLOSED_AT, storage, answers, out).unwrap_or(conn)
}

fn heading(op: u16, flags: u32, len: u32) -> [u8; VSOCK_PKT_HDR_SIZE] {
    let mut hdr = [0u8; VSOCK_PKT_HDR_SIZE];
    let pkt = VsockPacketHdr {
        src_cid: 3,
        dst_cid: 2,
        src_port: 5000,
        dst_port: 1024,
        len,
        type_: uapi::VSOCK_TYPE_STREAM,
        op,
        flags,
        buf_alloc: RING,
        fwd_cnt: 0,
    };
    let _ = packet::encode(pkt, &mut hdr);
    hdr
}
