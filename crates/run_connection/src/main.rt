// Runs a connection over its limits: settings, clocks, header and buffer lengths, ops, counts and
// storages on both sides of each, in several states. A line for each call: what it was given, 01's
// number of the answer, and what is left of record, header and buffers. Buffers start as bytes 2e.
#![tactic(auto)]

mod event;
mod open;
mod raw;
mod send;
mod show;
mod standing;
mod turn;

use std::io;

fn main(rt: HostRuntime) -> io::Result<()> {
    let mut stdout = rt.stdout();
    open::openings(&mut stdout)?;
    send::clocks(&mut stdout)?;
    send::headers(&mut stdout)?;
    send::lengths(&mut stdout)?;
    send::ops(&mut stdout)?;
    send::answers(&mut stdout)?;
    send::storages(&mut stdout)?;
    send::unsound(&mut stdout)?;
    turn::turns(&mut stdout)?;
    turn::answers(&mut stdout)?;
    event::timers(&mut stdout)?;
    event::events(&mut stdout)?;
    raw::raw(&mut stdout)
}
