//! Calls whose results share memory. Each row changes a copy and finds what was copied as it was; `tests/devices` runs the
//! rows while each request for memory fails in turn.
#![tactic(auto)]

mod calls;
mod forms;
mod outcomes;
mod partials;
mod updates;

use std::io;

fn main(rt: HostRuntime) -> io::Result<()> {
    let alloc = rt.alloc();
    for calls::Row(name, form, call) in &calls::ROWS {
        let word = calls::outcome(alloc, *form, *call).word();
        println!(rt; "{name}: {word}")?;
    }
    for updates::Row(name, form, change) in &updates::ROWS {
        let word = updates::outcome(alloc, *form, *change).word();
        println!(rt; "{name}: {word}")?;
    }
    for partials::Row(name, call) in &partials::ROWS {
        let word = partials::outcome(alloc, *call).word();
        println!(rt; "{name}: {word}")?;
    }
    Ok(())
}
