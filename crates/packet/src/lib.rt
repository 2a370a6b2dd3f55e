// The packet header of virtio 1.2, section 5.10.6: 44 bytes, and the ten numbers that they mean.
#![tactic(auto)]

mod field;
mod hdr;
pub mod uapi;

pub use hdr::{VsockPacketHdr, decode, encode};
