//! Charts: finite models of releases, and which rules hold at them.
#![tactic(auto)]

mod any;
mod bits;
mod chart;
mod evaluation;
mod fault;
mod judging;
mod limits;
mod lines;
mod lists;
mod maps;
mod singles;

pub use any::AnyChart;
pub use chart::{Chart, charts_are_lawful};
pub use evaluation::evaluate;
pub use fault::ChartFault;
pub use judging::{Holding, hold_at};
pub use limits::RELEASES;
pub use lines::Line;
pub use maps::Map;
pub use singles::Single;

#[cfg(test)]
mod tests;
