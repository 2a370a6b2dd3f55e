// What every call shares: answers, the stream's answers, limits, the refusal ladder, credit, and
// the one function that copies bytes.
#![tactic(auto)]

mod answer;
mod copying;
mod credit;
mod ladder;
pub mod limits;
mod stream;

pub use answer::{Answer, Refusal, number_of};
pub use copying::{copy, vsock_copy};
pub use credit::{peer_avail_credit, peer_needs_credit_update};
pub use ladder::{clock_answer, door, late, record_answer};
pub use stream::{StreamAnswer, StreamAnswers};
