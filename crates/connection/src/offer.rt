// What a call would offer to the stream, or ask of it: for a caller who tries the stream first and
// hands in its answer after. Nothing where the call's door refuses.
#![tactic(auto, unfolding(defs::specs::Choice::when, rules::specs::Offer::notify_flushes, rules::specs::Offer::notify_first, rules::specs::Offer::notify_second, rules::specs::Offer::raw_offered, rules::specs::Notify::notify_door))]

ghost use Rattle.std.specs.Prelude.{◌≡◌, None, is_some, unwrap_or};
ghost use Rattle.defs.specs.Answer.{told, answer_of, given_or};
ghost use Rattle.rules.specs.Offer.{notify_flushes, SendGiven, SendDoorSays, SendWritesSays, SendOfferedSays, RecvGiven, AskedLeft, RecvDoorSays, RecvAskedSays, NotifyOfferedSays, NotifyNextSays, RawOfferedSays};

use crate::event::is_flush_due;
use crate::raw::raw_door;
use crate::receive::{door_of, reads};
use crate::record::{credit, is_sound_over};
use crate::send::{VsockPacket, judge, writes};
use defs::{Answer, Refusal};
use rules::VsockConnection;

// What `send_pkt` answers of 1 to 4.
pub fn send_door(
    conn: VsockConnection,
    pkt: VsockPacket<'_, '_>,
    now_ms: u64,
    storage: &[u8],
) -> Answer
    ensures { SendDoorSays (record { conn = conn; store = storage.now; hdr = pkt.entry.hdr.now; present = pkt.entry.present; buf = pkt.entry.buf.now; clock = now_ms }) (told result) }
{
    judge(conn, pkt, now_ms, storage.len()).and(Ok(()))
}

// Whether `send_pkt` makes its one write, which may be of no byte.
pub fn send_writes(
    conn: VsockConnection,
    pkt: VsockPacket<'_, '_>,
    now_ms: u64,
    storage: &[u8],
) -> bool
    ensures { SendWritesSays (record { conn = conn; store = storage.now; hdr = pkt.entry.hdr.now; present = pkt.entry.present; buf = pkt.entry.buf.now; clock = now_ms }) result }
{
    match judge(conn, pkt, now_ms, storage.len()) {
        Ok(hdr) => writes(conn, hdr.op, pkt.present),
        Err(_) => false,
    }
}

// What it offers, as a part of the packet's buffer.
pub fn send_offered<'b>(
    conn: VsockConnection,
    pkt: VsockPacket<'_, 'b>,
    now_ms: u64,
    storage: &[u8],
) -> &'b [u8]
    ensures { SendOfferedSays (record { conn = conn; store = storage.now; hdr = pkt.entry.hdr.now; present = pkt.entry.present; buf = pkt.entry.buf.now; clock = now_ms }) result.now }
{
    match judge(conn, pkt, now_ms, storage.len()) {
        Ok(hdr) if writes(conn, hdr.op, pkt.present) => {
            &pkt.buf[..pkt.buf.len().min(hdr.len as usize)]
        }
        _ => &pkt.buf[..0],
    }
}

// What `recv_pkt` answers of 1 to 4. Header and buffer are given one by one, as `recv_pkt` is lent
// them: it writes both, so that no struct of shared slices could be all three calls'.
pub fn recv_door(
    conn: VsockConnection,
    hdr: &[u8],
    present: bool,
    buf: &[u8],
    now_ms: u64,
) -> Answer
    ensures { RecvDoorSays (record { conn = conn; hdr = hdr.now; present = present; buf = buf.now; clock = now_ms }) (told result) }
{
    door_of(conn, hdr.len(), present, buf.len(), now_ms)
}

// For how many bytes `recv_pkt` asks the stream, which may be none; no number where it doesn't read.
pub fn recv_asked(
    conn: VsockConnection,
    hdr: &[u8],
    present: bool,
    buf: &[u8],
    now_ms: u64,
) -> Result<Option<usize>, Refusal>
    ensures { RecvAskedSays (record { conn = conn; hdr = hdr.now; present = present; buf = buf.now; clock = now_ms }) (record { answer = told (answer_of result); reads = is_some (given_or None result); count = unwrap_or (given_or None result) 0 }) }
{
    door_of(conn, hdr.len(), present, buf.len(), now_ms)?;
    let asked = buf.len().min(credit(conn) as usize);
    Ok(reads(conn, present).then_some(asked))
}

// What `notify` offers first, as a part of `storage`: empty where no flush is due.
pub fn notify_offered(conn: VsockConnection, writable: bool, storage: &[u8]) -> &[u8]
    ensures { NotifyOfferedSays conn writable storage.now result.now }
{
    if flushes(conn, writable, storage.len()) {
        conn.tx_buf.first_piece(storage)
    } else {
        &storage[..0]
    }
}

// What it offers next, if that was taken whole.
pub fn notify_offered_next(conn: VsockConnection, writable: bool, storage: &[u8]) -> &[u8]
    ensures { NotifyNextSays conn writable storage.now result.now }
{
    if flushes(conn, writable, storage.len()) {
        conn.tx_buf.second_piece(storage)
    } else {
        &storage[..0]
    }
}

// What `send_bytes_raw` offers.
pub fn raw_offered(conn: VsockConnection, buf: &[u8]) -> &[u8]
    ensures { RawOfferedSays conn buf.now result.now }
{
    match raw_door(conn, buf) {
        Ok(()) => buf,
        Err(_) => &buf[..0],
    }
}

fn flushes(conn: VsockConnection, writable: bool, storage: usize) -> bool
    ensures { result ≡ notify_flushes conn writable storage }
{
    is_sound_over(conn, storage) && is_flush_due(conn, writable)
}
