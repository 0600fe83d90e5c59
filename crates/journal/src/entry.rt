//! The lines of a journal.
use charts::ChartFault;
use prover::Restart;
use service::Call;

/// A line of a journal.
#[derive(Drop)]
pub enum Entry<'j> {
    /// A call other than check.
    Call(Call<'j>),
    /// A check, with how many of the trees' bytes are its own.
    // Apart from `Call`, which borrows its tree: while lines are read the trees still grow.
    Check {
        goal: &'j [u8],
        restart: Restart,
        length: usize,
    },
    /// A chart that was filled, or not.
    Chart(Result<(), ChartFault>),
    /// None of these.
    // An entry, as a line is printed for it too.
    Unread,
}

impl Entry<'_> {
    /// How many bytes of the trees found are the line's own.
    pub fn room(&self) -> usize {
        match self {
            Entry::Call(call) => call.room(),
            _ => 0,
        }
    }
}
