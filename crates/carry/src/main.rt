// Carries standard input to standard output through one proved connection.
//
// The input is what the guest's collector sends, the output is the host's stream. The guest cuts
// it into packets within the credit that the core's own headers give it; what the core says to
// offer is offered to a real write, whose true answer is handed back; what the stream did not take
// waits in the ring for the next out-event. When the input ends the guest shuts down, and the core
// resets the connection as soon as the ring is empty.
//
// Arguments: ring size, packet size, and a script of the stream's moods, a character for each
// write that is due, over and over: `.` as it comes, `p` a pause (it blocks), 1 to 9 at most so
// many bytes. scripts/carry starts it, and makes an exit status of what it says.
#![tactic(auto)]

mod account;
mod arguments;
mod guest;
mod host;
mod moods;
mod trip;
mod waiting;

use crate::arguments::Wishes;
use crate::trip::{Given, Trip};
use std::io;
use std::rt::Runtime;

// As many moods as a script has at most.
const SCRIPT: usize = 256;

// The storage of the largest ring, and as much for what is read and what goes out.
const ROOM: usize = 65536;

fn main(rt: HostRuntime) -> io::Result<()> {
    let mut script = [0u8; SCRIPT];
    match arguments::wished(&rt, &mut script) {
        Ok(wishes) => start(&rt, wishes),
        Err(objection) => account::object(&rt, objection),
    }
}

// The ring's storage is just as long as the ring.
fn start<R: Runtime>(rt: &R, wishes: Wishes<'_>) -> io::Result<()> {
    let mut storage = [0u8; ROOM];
    let mut buf = [0u8; ROOM];
    let mut out = [0u8; ROOM];
    let n = text::fitting(wishes.size as usize, &storage);
    let given = Given {
        rt,
        packet: wishes.packet,
        moods: wishes.moods,
    };
    let trip = Trip::opened(wishes.size);
    let done = travel(&given, trip, &mut storage[..n], &mut buf, &mut out);
    account::account(rt, done)
}

// A proved loop has to end, and nothing says that the input does: the turns are counted from a
// range that no run uses up.
fn travel<R: Runtime>(
    given: &Given<'_, R>,
    trip: Trip,
    storage: &mut [u8],
    buf: &mut [u8],
    out: &mut [u8],
) -> Trip {
    let mut trip = trip;
    for _ in 0..u64::MAX {
        if !trip.goes_on() {
            break;
        }
        trip = turn(given, trip, storage, buf, out);
    }
    trip
}

// The guest hears what the core has to say, brings a packet, and the stream gets a chance to take
// what is held.
fn turn<R: Runtime>(
    given: &Given<'_, R>,
    trip: Trip,
    storage: &mut [u8],
    buf: &mut [u8],
    out: &mut [u8],
) -> Trip {
    let heard = guest::listen(trip);
    let brought = guest::bring(given, heard, storage, buf, out);
    let drained = host::drain(given, brought, storage, out);
    account::progress(given.rt, trip.taken, drained.taken);
    drained
}
