// A whole life of a session on small stores. Every answer is printed: a refusal by its number in document 01's table, a report by its state.
#![tactic(auto)]

use std::io;

mod calls; // calls.rt: calls whose answers are printed
mod fixtures; // fixtures.rt: the opening, the device, ids, requests and replies
mod full; // full.rt: a store of 130 rows, of which 128 may be held
mod prepare; // prepare.rt: what stands before the first request
mod show; // show.rt: answers as text
mod small; // small.rt: a store of two rows

fn main(rt: HostRuntime) -> io::Result<()> {
    let mut out = rt.stdout();
    small::run(&mut out)?;
    full::run(&mut out)
}
