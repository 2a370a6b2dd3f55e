// The record of a connection.
use csm::{ConnState, PendingRxSet, Timer};
use txbuf::TxBuf;

// What the port has in place of the Rust's constants, beside the ring's size.
#[derive(Clone, Copy, Debug, Default, PartialEq, Eq)]
pub struct Settings {
    pub threshold: u32,
    pub request_timeout: u64,
    pub shutdown_timeout: u64,
}

// By `default` all zero, in LocalInit, with no timer: what a refused opening gives.
#[derive(Clone, Copy, Debug, Default, PartialEq, Eq)]
pub struct VsockConnection {
    pub settings: Settings,
    pub state: ConnState,
    pub local_cid: u64,
    pub peer_cid: u64,
    pub local_port: u32,
    pub peer_port: u32,
    // What the guest sent and the stream has not taken yet.
    pub tx_buf: TxBuf,
    // How many of the guest's bytes the stream has taken.
    pub fwd_cnt: u32,
    // The guest's space for this connection, and how much of ours it has taken out of it.
    pub peer_buf_alloc: u32,
    pub peer_fwd_cnt: u32,
    // How many bytes were sent to the guest.
    pub rx_cnt: u32,
    // Our fwd_cnt as the guest last heard it.
    pub last_fwd_cnt_to_peer: u32,
    pub pending_rx: PendingRxSet,
    pub expiry: Timer,
}
