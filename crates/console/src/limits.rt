//! The numbers of the console.

/// The number of a line that this state does not take.
pub const NOT_TAKEN: u8 = 51;
/// The number of any other line.
pub const UNKNOWN: u8 = 52;
/// The budget of a question.
pub const BUDGET: u32 = 100_000;
/// The bytes of the tree buffer.
pub const ROOM: usize = 4_096;
/// The register's slots.
pub const SLOTS: usize = 64;
