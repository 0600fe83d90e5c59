//! The journal: carries out a written list of calls from an empty draft of 64 names, and prints a line for each line.
#![tactic(auto)]

mod carrying;
mod entry;
mod filling;
mod journal;
mod printing;
mod words;

use carrying::carry_out;
use journal::Journal;
use printing::print;
use std::io;
use std::io::Read;

fn main(rt: HostRuntime) -> io::Result<()> {
    let heap = rt.alloc();
    let mut text = Vec::new(heap);
    rt.stdin().read_to_end(&mut text)?;
    let Journal {
        entries,
        trees,
        charts,
        mut found,
    } = Journal::read(heap, &text)?;
    let answers = carry_out(heap, &entries, &trees, &charts, &mut found)?;
    print(&rt, &entries, &answers, &found)
}
