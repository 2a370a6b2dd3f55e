// The TX ring of a connection (txbuf.rs): it holds what the guest sent and the host's stream has
// not taken yet. The record goes by value; the storage is lent, and is exactly as long as the ring.
#![tactic(auto)]

mod flush;
mod push;
mod record;

pub use flush::Flushed;
pub use push::vsock_ring_push;
pub use record::{Opened, TxBuf};
