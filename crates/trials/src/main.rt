//! Tries the calls of the service on cases whose results were worked out by hand, group by group.
#![tactic(auto)]

mod answer;
mod deep;
mod examples;
mod judge;
mod limits;
mod rooms;
mod spelling;
mod suppositions;
mod tally;
mod tree_cases;
mod trees;
mod trial;

use deep::deep;
use examples::examples;
use limits::{budgets, buffers};
use rooms::rooms;
use std::io;
use suppositions::suppositions;
use trees::trees;

fn main(rt: HostRuntime) -> io::Result<()> {
    let heap = rt.alloc();
    println!(rt; "examples: {}", examples(heap)?)?;
    println!(rt; "budgets: {}", budgets(heap)?)?;
    println!(rt; "buffers: {}", buffers(heap)?)?;
    println!(rt; "suppositions: {}", suppositions(heap)?)?;
    println!(rt; "names and records: {}", rooms(heap)?)?;
    println!(rt; "trees: {}", trees(heap)?)?;
    println!(rt; "deep: {}", deep(heap)?)
}
