//! Compares the service with a slow prover that shares nothing with it, on every small book and on many larger ones.
#![tactic(auto)]

mod asking;
mod cases;
mod chance;
mod comparing;
mod counts;
mod every;
mod forms;
mod groups;
mod judge;
mod looking;
mod nodes;
mod rules;
mod sets;
mod slow;
mod worlds;

use comparing::Comparison;
use std::io;

fn main(rt: HostRuntime) -> io::Result<()> {
    let mut comparison = Comparison::new(rt.alloc());
    comparison.compare_fillings()?;
    comparison.every_book()?;
    comparison.by_chance()?;
    println!(rt; "{}", comparison.counts)
}
