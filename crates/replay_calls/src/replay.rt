// Reads calls, makes each on the proved code and writes what it left, over runs that are lent.
use crate::{ask_calls, conn_calls, frame, hdr_calls, killq_calls, ring_calls, rxq_calls};

// More calls than any run of it is given: a loop has an end.
const MOST: u64 = 1000000000000;

// Replays all calls, each over as much of the runs as its frame fills. It has a C name, so that a
// host can lend longer runs than the program has (oracle/larger.sh); so the runs are five parameters.
#[unsafe(no_mangle)]
pub extern "C" fn vsock_replay(
    storage: &mut [u8],
    hdr: &mut [u8],
    buf: &mut [u8],
    bytes: &mut [u8],
    out: &mut [u8],
) {
    for _ in 0..MOST {
        if !replay(storage, hdr, buf, bytes, out) {
            break;
        }
    }
}

// One call; false where the input has ended.
fn replay(
    storage: &mut [u8],
    hdr: &mut [u8],
    buf: &mut [u8],
    bytes: &mut [u8],
    out: &mut [u8],
) -> bool {
    let mut head = [0u8; frame::HEAD];
    let n = io::read_full(0, &mut head);
    if n < frame::HEAD {
        return false;
    }
    cut(&head, storage, hdr, buf, bytes, out);
    true
}

// Fills each run, and hands it on as exactly its bytes.
fn cut(
    head: &[u8],
    storage: &mut [u8],
    hdr: &mut [u8],
    buf: &mut [u8],
    bytes: &mut [u8],
    out: &mut [u8],
) {
    let storage = frame::filled(frame::len_at(head, 120), storage);
    let hdr = frame::filled(frame::len_at(head, 124), hdr);
    let buf = frame::filled(frame::len_at(head, 128), buf);
    let bytes = frame::filled(frame::len_at(head, 132), bytes);
    let out = frame::filled(frame::len_at(head, 136), out);
    call(head, storage, hdr, buf, bytes, out);
}

fn call(
    head: &[u8],
    storage: &mut [u8],
    hdr: &mut [u8],
    buf: &mut [u8],
    bytes: &[u8],
    out: &mut [u8],
) {
    let entry = frame::byte_at(head, 0);
    match entry {
        1..=7 => ring_calls::call(entry, head, storage, bytes, out),
        11..=23 => conn_calls::call(entry, head, storage, hdr, buf, bytes, out),
        24..=27 => ask_calls::call(entry, head, storage, hdr, buf, bytes),
        31..=39 => rxq_calls::call(entry, head, storage, hdr, buf, bytes),
        41..=49 => killq_calls::call(entry, head, storage, hdr, buf, bytes),
        51..=52 => hdr_calls::call(entry, head, hdr),
        _ => {}
    }
}
