// A connection between a guest's socket and a host's stream (csm/connection.rs).
//
// The guest sends packets, which the host's stream takes or the ring holds (`send_pkt`, `notify`);
// the host's bytes go to the guest as packets, one for each turn to speak (`recv_pkt`), as far as
// the guest has room: that is its credit. What is to be said next is a set of pending indications.
// What states, indications and turns are is in `csm`; what each call leaves is said in `rules`.
// The record goes in by value and comes back; the ring's storage, the header and the buffers are
// lent; the stream's answers and the clock are handed in. The calls are functions and not methods:
// the record's type stands in `rules`, and a method stands where its type does.
#![tactic(auto)]

mod event;
mod look;
mod offer;
mod open;
mod raw;
mod receive;
mod record;
mod send;

pub use event::{notify, notify_door};
pub use look::{
    EvSet, expiry, get_polled_evset, has_expired, has_pending_rx, kill, state, will_expire,
};
pub use offer::{
    notify_offered, notify_offered_next, raw_offered, recv_asked, recv_door, send_door,
    send_offered, send_writes,
};
pub use open::{new_local_init, new_peer_init};
pub use raw::{raw_door, send_bytes_raw};
pub use receive::recv_pkt;
pub use record::Outcome;
pub use rules::{Settings, VsockConnection};
pub use send::{VsockPacket, send_pkt};
