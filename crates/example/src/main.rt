// The shortest use of a connection from another crate: the guest opens it, is confirmed, and sends
// eight bytes to a stream that takes five of them now and three later.
#![tactic(auto)]

use connection::{Settings, VsockConnection, VsockPacket};
use defs::limits::VSOCK_PKT_HDR_SIZE;
use defs::{Refusal, StreamAnswer, StreamAnswers};
use packet::{VsockPacketHdr, uapi};
use std::io;
use std::io::Write;

fn main(rt: HostRuntime) -> io::Result<()> {
    let mut now = [0u8; 5];
    let mut later = [0u8; 3];
    let count = match carried(&mut now, &mut later) {
        Ok(conn) => conn.fwd_cnt,
        Err(_) => 0,
    };
    let mut stdout = rt.stdout();
    stdout.write_all(&now)?;
    stdout.write_all(&later)?;
    println!(rt; "{count} bytes forwarded")
}

// What the stream takes now goes to the one buffer, what it takes later to the other.
fn carried(now: &mut [u8], later: &mut [u8]) -> Result<VsockConnection, Refusal> {
    let mut storage = [0u8; 16];
    let settings = Settings {
        threshold: 8,
        request_timeout: 2000,
        shutdown_timeout: 2000,
    };
    let opening = connection::new_peer_init(16, settings, 2, 3, 1024, 5000, 4096);
    opening.answer?;
    let conn = confirmed(opening.conn)?;
    let pkt = VsockPacket {
        hdr: &data_header(8),
        present: true,
        buf: b"8.42 g\r\n",
    };
    let sent = connection::send_pkt(conn, pkt, 0, &mut storage, takes(5), now)?;
    connection::notify(sent, false, true, &storage, takes(3), later)
}

// The first turn to speak is the RESPONSE.
fn confirmed(conn: VsockConnection) -> Result<VsockConnection, Refusal> {
    let mut hdr = [0u8; VSOCK_PKT_HDR_SIZE];
    let nothing = StreamAnswer::WouldBlock;
    let said = connection::recv_pkt(conn, &mut hdr, false, &mut [], 0, nothing, b"");
    said.answer?;
    Ok(said.conn)
}

// What the host's stream answers: here a count made up, in a host the result of a write.
fn takes(count: usize) -> StreamAnswers {
    StreamAnswers {
        first: StreamAnswer::Count(count),
        second: StreamAnswer::WouldBlock,
    }
}

fn data_header(len: u32) -> [u8; VSOCK_PKT_HDR_SIZE] {
    let mut hdr = [0u8; VSOCK_PKT_HDR_SIZE];
    let pkt = VsockPacketHdr {
        src_cid: 3,
        dst_cid: 2,
        src_port: 5000,
        dst_port: 1024,
        len,
        type_: uapi::VSOCK_TYPE_STREAM,
        op: uapi::VSOCK_OP_RW,
        flags: 0,
        buf_alloc: 4096,
        fwd_cnt: 0,
    };
    let _ = packet::encode(pkt, &mut hdr);
    hdr
}
