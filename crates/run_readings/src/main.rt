// Runs 01's readings through the code, a line each: the letter, or the number whose limit it is, then
// what came out.
#![tactic(auto)]

mod data;
mod ends;
mod queues;
mod scene;
mod sizes;

use std::io;

fn main(rt: HostRuntime) -> io::Result<()> {
    let mut stdout = rt.stdout();
    data::reading_a(&mut stdout)?;
    data::reading_bcd(&mut stdout)?;
    data::reading_e(&mut stdout)?;
    data::reading_f(&mut stdout)?;
    data::reading_g(&mut stdout)?;
    data::reading_h(&mut stdout)?;
    queues::reading_i(&mut stdout)?;
    queues::reading_j(&mut stdout)?;
    ends::reading_k(&mut stdout)?;
    ends::reading_l(&mut stdout)?;
    sizes::reading_r(&mut stdout)?;
    sizes::reading_slots(&mut stdout)?;
    sizes::reading_q(&mut stdout)
}
