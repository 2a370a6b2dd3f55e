// The connection table as the queues see it (muxer_impl.rs, `HashMap<ConnMapKey, VsockConnection>`):
// lent parallel slices of numbers in slot order, so that a walk over it has one order.
#![tactic(auto)]

mod distinct;
mod key;
mod table;

pub use key::{ConnMapKey, PORT_SPAN, key_of};
pub use table::is_sound;
