// What standard error is told: what the program takes, how far it is, and the account at the end.
use crate::arguments;
use crate::arguments::Objection;
use crate::trip::Trip;
use defs::Refusal;
use defs::limits::{MAX_PKT_BUF_SIZE, MIN_RING_SIZE};
use std::io;
use std::rt::Runtime;

// The bytes between two signs of life: 64 MiB.
const FAR: u64 = 67108864;

// Where a 32-bit count comes round.
const WRAP: u64 = 4294967296;

// What is wrong with the arguments, and what they may be.
pub fn object<R: Runtime>(rt: &R, objection: Objection) -> io::Result<()> {
    let least = MIN_RING_SIZE;
    let most = arguments::MAX_RING;
    let longest = MAX_PKT_BUF_SIZE;
    eprintln!(rt; "carry: {objection}")?;
    eprint!(rt; "usage: carry [RING [PACKET [MOODS]]]: ring a power of two")?;
    eprint!(rt; " from {least} to {most}, packet 1 to {longest}")?;
    eprintln!(rt; " bytes, moods of '.', 'p' and '1' to '9', not all 'p'")
}

// Told while bytes are carried. What standard error does not take is let go, and the stream goes on.
pub fn progress<R: Runtime>(rt: &R, before: u64, after: u64) {
    if before / FAR < after / FAR {
        let _ = eprintln!(rt; "carry: bytes taken {after}");
    }
}

// Why a stream failed, in the system's words. Let go likewise where it can't be told.
pub fn failure<R: Runtime>(rt: &R, what: &str, error: io::Error) {
    let _ = told(rt, what, error);
}

// The words without the number that std puts after them.
fn told<R: Runtime>(rt: &R, what: &str, error: io::Error) -> io::Result<()> {
    let Ok(text) = format!(in rt.alloc(); "{error}") else {
        return eprintln!(rt; "{what}");
    };
    match text.as_str().split_once(" (os error ") {
        Some((words, _)) => eprintln!(rt; "{what}: {words}"),
        None => eprintln!(rt; "{what}: {text}"),
    }
}

pub fn account<R: Runtime>(rt: &R, t: Trip) -> io::Result<()> {
    let held = t.conn.tx_buf.used();
    eprint!(rt;
        "packets {}, bytes in {}, bytes taken {}, most held {}",
        t.packets, t.bytes_in, t.taken, t.most
    )?;
    eprint!(rt;
        ", held now {held}, credit updates {}, forwarded count {}",
        t.updates, t.conn.fwd_cnt
    )?;
    if WRAP <= t.taken {
        eprint!(rt; " (bytes taken modulo 2^32)")?;
    }
    eprintln!(rt; "")?;
    verdict(rt, t, held)
}

// What went wrong, if anything did, by 01's number and name where a call was refused.
fn verdict<R: Runtime>(rt: &R, t: Trip, held: u32) -> io::Result<()> {
    if let Some(refusal) = t.refusal() {
        let number = u8::from(refusal);
        // Those that change nothing are 1 to 6.
        if number <= 6 {
            eprintln!(rt; "carry: a call was refused with answer {number}, {refusal:?}")?;
        } else {
            eprintln!(rt; "carry: a call was refused with answer {number}")?;
        }
    }
    if t.bytes_in != t.taken || held != 0 {
        eprintln!(rt; "carry: the stream took what is said above, the rest did not go on")?;
    }
    Ok(())
}
