// The rules of a connection, said over its record: what is sound, what each call leaves, what holds
// of every run (specs/), and the laws of these (proofs/). The calls themselves stand in `connection`.
#![tactic(auto)]

mod record;

pub use record::{Settings, VsockConnection};
