// Replays the outside vectors of the header: reads 44 bytes at a time from standard input, decodes
// them, prints the ten fields, encodes these and prints the bytes. docs/TESTING.md says who made
// the vectors.
#![tactic(auto)]

use defs::limits::VSOCK_PKT_HDR_SIZE;
use packet::{VsockPacketHdr, uapi};
use std::io;
use std::io::{Stdout, Write};

// More headers than the vectors hold: a program's loop has an end.
const MOST: u32 = 100000;

fn main(rt: HostRuntime) -> io::Result<()> {
    let mut stdin = rt.stdin();
    let mut stdout = rt.stdout();
    numbers(&mut stdout)?;
    for _ in 0..MOST {
        let mut bytes = [0u8; VSOCK_PKT_HDR_SIZE];
        let n = text::fill(&mut stdin, &mut bytes)?;
        if n == 0 {
            break;
        }
        replay(&mut stdout, &bytes[..n])?;
    }
    Ok(())
}

fn numbers(stdout: &mut Stdout) -> io::Result<()> {
    let ops = [
        ("REQUEST", uapi::VSOCK_OP_REQUEST),
        ("RESPONSE", uapi::VSOCK_OP_RESPONSE),
        ("RST", uapi::VSOCK_OP_RST),
        ("SHUTDOWN", uapi::VSOCK_OP_SHUTDOWN),
        ("RW", uapi::VSOCK_OP_RW),
        ("CREDIT_UPDATE", uapi::VSOCK_OP_CREDIT_UPDATE),
        ("CREDIT_REQUEST", uapi::VSOCK_OP_CREDIT_REQUEST),
        ("STREAM", uapi::VSOCK_TYPE_STREAM),
    ];
    for (name, number) in ops {
        writeln!(stdout, "{name} {number}")?;
    }
    let flags = [
        ("SHUTDOWN_RCV", uapi::VSOCK_FLAGS_SHUTDOWN_RCV),
        ("SHUTDOWN_SEND", uapi::VSOCK_FLAGS_SHUTDOWN_SEND),
    ];
    for (name, number) in flags {
        writeln!(stdout, "{name} {number}")?;
    }
    Ok(())
}

fn replay(stdout: &mut Stdout, bytes: &[u8]) -> io::Result<()> {
    let Ok(hdr) = packet::decode(bytes) else {
        return writeln!(stdout, "refused");
    };
    fields(stdout, hdr)?;
    let mut out = [0u8; VSOCK_PKT_HDR_SIZE];
    let _ = packet::encode(hdr, &mut out);
    let mut digits = [0u8; 2 * VSOCK_PKT_HDR_SIZE];
    text::hex(&out, &mut digits);
    text::say(stdout, &digits)?;
    writeln!(stdout)
}

fn fields(stdout: &mut Stdout, hdr: VsockPacketHdr) -> io::Result<()> {
    let VsockPacketHdr {
        src_cid,
        dst_cid,
        src_port,
        dst_port,
        len,
        type_,
        op,
        flags,
        buf_alloc,
        fwd_cnt,
    } = hdr;
    write!(stdout, "{src_cid} {dst_cid} {src_port} {dst_port} {len} ")?;
    write!(stdout, "{type_} {op} {flags} {buf_alloc} {fwd_cnt} ")
}
