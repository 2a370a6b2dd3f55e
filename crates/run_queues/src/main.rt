// Runs both queues over their edges (limits, eviction, pushes to an unsynced queue, pops, stray
// items, tables, equal times, 01's readings i and j) and prints a line for each call: its input,
// 01's number of the answer, the record that is left, and its first three places. The last place
// of the array has a line of its own where a call reaches it.
#![tactic(auto)]

mod kill;
mod kill_runs;
mod rx;
mod rx_runs;
mod shared;

use std::io;

fn main(rt: HostRuntime) -> io::Result<()> {
    let mut stdout = rt.stdout();
    rx_runs::limits(&mut stdout)?;
    rx_runs::reading_j(&mut stdout)?;
    rx_runs::full(&mut stdout)?;
    rx_runs::unsound(&mut stdout)?;
    rx_runs::tables(&mut stdout)?;
    kill_runs::limits(&mut stdout)?;
    kill_runs::reading_i(&mut stdout)?;
    kill_runs::full(&mut stdout)?;
    kill_runs::unsound(&mut stdout)?;
    kill_runs::tables(&mut stdout)?;
    kill_runs::equality(&mut stdout)
}
