//! The limit of a chart.

/// At most so many releases has a chart.
pub const RELEASES: usize = 64;
