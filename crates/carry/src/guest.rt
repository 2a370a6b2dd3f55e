// The guest's end: it hears what the core says, and cuts the input into packets.
use crate::trip::{Given, Trip, more_taken};
use crate::{account, host, trip, waiting};
use connection::VsockPacket;
use defs::limits::VSOCK_PKT_HDR_SIZE;
use defs::{StreamAnswer, StreamAnswers};
use packet::{VsockPacketHdr, uapi};
use std::io;
use std::io::Read;
use std::rt::Runtime;

// Nothing more is taken, and nothing more is sent.
const BOTH_WAYS: u32 = uapi::VSOCK_FLAGS_SHUTDOWN_RCV | uapi::VSOCK_FLAGS_SHUTDOWN_SEND;

// What the guest sends.
#[derive(Clone, Copy)]
enum Packet<'a> {
    Data(&'a [u8]),
    CreditRequest,
    Shutdown,
}

impl<'a> Packet<'a> {
    fn op(self) -> u16 {
        match self {
            Packet::Data(_) => uapi::VSOCK_OP_RW,
            Packet::CreditRequest => uapi::VSOCK_OP_CREDIT_REQUEST,
            Packet::Shutdown => uapi::VSOCK_OP_SHUTDOWN,
        }
    }

    fn flags(self) -> u32 {
        match self {
            Packet::Shutdown => BOTH_WAYS,
            _ => 0,
        }
    }

    fn payload(self) -> &'a [u8] {
        match self {
            Packet::Data(bytes) => bytes,
            _ => b"",
        }
    }

    // The packets are cut to the limit: 0 never comes of more.
    fn len(self) -> u32 {
        u32::try_from(self.payload().len()).unwrap_or(0)
    }

    fn header(self) -> [u8; VSOCK_PKT_HDR_SIZE] {
        let mut hdr = [0u8; VSOCK_PKT_HDR_SIZE];
        let pkt = VsockPacketHdr {
            src_cid: trip::GUEST_CID,
            dst_cid: trip::HOST_CID,
            src_port: trip::GUEST_PORT,
            dst_port: trip::HOST_PORT,
            len: self.len(),
            type_: uapi::VSOCK_TYPE_STREAM,
            op: self.op(),
            flags: self.flags(),
            buf_alloc: trip::GUEST_SPACE,
            fwd_cnt: 0,
        };
        let _ = packet::encode(pkt, &mut hdr);
        hdr
    }
}

pub fn listen(trip: Trip) -> Trip {
    match connection::has_pending_rx(trip.conn) {
        Ok(true) => hear(trip),
        _ => trip,
    }
}

// One header of the core's: it tells the guest our space and count, and whether it is over.
fn hear(trip: Trip) -> Trip {
    let mut hdr = [0u8; VSOCK_PKT_HDR_SIZE];
    let got = connection::recv_pkt(
        trip.conn,
        &mut hdr,
        false,
        &mut [],
        0,
        StreamAnswer::WouldBlock,
        b"",
    );
    heard(trip.moved(got.conn, got.answer), &hdr)
}

fn heard(trip: Trip, hdr: &[u8]) -> Trip {
    let Ok(said) = packet::decode(hdr) else {
        return trip;
    };
    let update = said.op == uapi::VSOCK_OP_CREDIT_UPDATE;
    Trip {
        alloc: said.buf_alloc,
        heard: said.fwd_cnt,
        asked: false,
        over: trip.over || said.op == uapi::VSOCK_OP_RST,
        updates: trip.updates.saturating_add(update as u64),
        ..trip
    }
}

// As much of the input as packet and credit allow. Without credit the guest asks for news, once, and
// at the end of the input it shuts down.
pub fn bring<R: Runtime>(
    given: &Given<'_, R>,
    trip: Trip,
    storage: &mut [u8],
    buf: &mut [u8],
    out: &mut [u8],
) -> Trip {
    if trip.ended || trip.over {
        return trip;
    }
    let credit = defs::peer_avail_credit(trip.alloc, trip.sent, trip.heard);
    let n = given.packet.min(credit as usize);
    if n == 0 {
        return ask(given, trip, storage, out);
    }
    match fill(given.rt, buf, n) {
        Err(e) => unread(given, e, trip, storage, out),
        Ok(0) => close(given, trip, storage, out),
        Ok(got) => deliver(
            given,
            trip,
            Packet::Data(text::front(buf, got)),
            storage,
            out,
        ),
    }
}

fn ask<R: Runtime>(given: &Given<'_, R>, trip: Trip, storage: &mut [u8], out: &mut [u8]) -> Trip {
    if trip.asked {
        return trip;
    }
    Trip {
        asked: true,
        ..deliver(given, trip, Packet::CreditRequest, storage, out)
    }
}

fn fill<R: Runtime>(rt: &R, buf: &mut [u8], n: usize) -> io::Result<usize> {
    let k = text::fitting(n, buf);
    rt.reader().read(&mut buf[..k])
}

// Input that would block is not its end; any other failure is, and says why.
fn unread<R: Runtime>(
    given: &Given<'_, R>,
    error: io::Error,
    trip: Trip,
    storage: &mut [u8],
    out: &mut [u8],
) -> Trip {
    if waiting::would_block(error) {
        return waited(given, trip, storage, out);
    }
    account::failure(
        given.rt,
        "carry: the input could not be read to its end",
        error,
    );
    close(given, trip, storage, out)
}

// As long as bytes are held there is something to do meanwhile. Told that nothing more is to come,
// the guest ends as at the end of the input.
fn waited<R: Runtime>(
    given: &Given<'_, R>,
    trip: Trip,
    storage: &mut [u8],
    out: &mut [u8],
) -> Trip {
    if trip.conn.tx_buf.used() != 0 || waiting::for_input() {
        return trip;
    }
    close(given, trip, storage, out)
}

fn close<R: Runtime>(given: &Given<'_, R>, trip: Trip, storage: &mut [u8], out: &mut [u8]) -> Trip {
    Trip {
        ended: true,
        ..deliver(given, trip, Packet::Shutdown, storage, out)
    }
}

// A packet of the guest's. Where the core would write it at once, the stream is tried first, and a
// mood is used up.
fn deliver<R: Runtime>(
    given: &Given<'_, R>,
    trip: Trip,
    packet: Packet<'_>,
    storage: &mut [u8],
    out: &mut [u8],
) -> Trip {
    let pkt = VsockPacket {
        hdr: &packet.header(),
        present: true,
        buf: packet.payload(),
    };
    let len = packet.len();
    let mut writes = trip.writes;
    let mut first = StreamAnswer::WouldBlock;
    if connection::send_writes(trip.conn, pkt, 0, storage) {
        let offered = connection::send_offered(trip.conn, pkt, 0, storage);
        first = host::offer(given.rt, offered, given.moods.at(writes));
        writes = given.moods.after(writes);
    }
    let answers = StreamAnswers {
        first,
        second: StreamAnswer::WouldBlock,
    };
    let after = connection::send_pkt(trip.conn, pkt, 0, storage, answers, out);
    Trip {
        writes,
        sent: trip.sent.wrapping_add(len),
        packets: trip.packets.saturating_add(1),
        bytes_in: trip.bytes_in.saturating_add(len as u64),
        taken: more_taken(trip.taken, first),
        ..trip.after(after)
    }
}
