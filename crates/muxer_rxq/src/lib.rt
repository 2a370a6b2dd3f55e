// The muxer's RX queue (muxer_rxq.rs): which connections have something for the guest, and the RSTs
// that are due. It is smaller than the connection table, so it may lose sync with it; then the
// muxer drains it and builds it anew. Items stand in an array by value, front at place 0.
#![tactic(auto)]

mod build;
mod push;
mod rxq;
#[cfg(test)]
mod tests;

pub use rxq::{MuxerRx, MuxerRxQ, Popped, Queued, RxQueue};
