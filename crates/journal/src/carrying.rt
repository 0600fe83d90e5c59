//! Carrying the calls of a journal out.
use crate::entry::Entry;
use charts::AnyChart;
use keys::NAMES;
use reader::Name;
use service::{Answer, Call, replay};
use std::alloc::{AllocError, Global};

/// The calls of a journal, in their order; each check is handed the next of the trees' bytes, as many as are its own.
fn calls<'j>(
    heap: Global,
    entries: &[Entry<'j>],
    trees: &'j [u8],
) -> Result<Vec<Call<'j>>, AllocError> {
    let mut calls = Vec::new(heap);
    let mut trees = trees;
    for entry in entries {
        match entry {
            Entry::Call(call) => calls.push(*call)?,
            Entry::Check {
                goal,
                restart,
                length,
            } => {
                let (tree, behind) = trees.split_at_checked(*length).unwrap_or((trees, &[]));
                trees = behind;
                calls.push(Call::Check {
                    goal,
                    restart: *restart,
                    tree,
                })?;
            }
            Entry::Chart(_) | Entry::Unread => {}
        }
    }
    Ok(calls)
}

/// Carries the calls of a journal out, in their order, from an empty draft of 64 names, and gives their answers; the trees found stand
/// in `found`, that of each ask in its own room.
pub fn carry_out(
    heap: Global,
    entries: &[Entry<'_>],
    trees: &[u8],
    charts: &[AnyChart],
    found: &mut [u8],
) -> Result<Vec<Answer>, AllocError> {
    let calls = calls(heap, entries, trees)?;
    let mut answers = vec![in heap; Answer::NotTaken; calls.len()]?;
    let mut slots = [Name::new(&[]); NAMES];
    replay(&mut slots, &calls, charts, found, &mut answers);
    Ok(answers)
}
