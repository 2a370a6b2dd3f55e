// The muxer's kill queue (muxer_killq.rs): connections that are to be ended, each at its time. It is
// smaller than the connection table, so it may lose sync with it; then the muxer drains it and
// builds it anew. Items stand in an array by value, front at place 0.
#![tactic(auto)]

mod build;
mod item;
mod killq;
#[cfg(test)]
mod tests;

pub use item::MuxerKillQItem;
pub use killq::{KillQueue, MuxerKillQ, Popped, Queued};
