// The state machine of a connection (csm/mod.rs, and the rules of csm/connection.rs that need no
// record), as tables: what a state allows, what is pending, what a turn to speak says, and what that
// leaves of state, indications and timer. No byte is touched here.
#![tactic(auto)]

mod pending;
mod row;
mod state;
mod timer;
mod turn;

pub use pending::PendingRxSet;
pub use row::{After, Arms, Row};
pub use state::{ConnState, is_recv_off, is_send_off};
pub use timer::{Timer, is_after, is_due, shut_arms};
pub use turn::{RxStep, Turn};
