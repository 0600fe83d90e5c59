//! What is printed for each line.
use crate::entry::Entry;
use charts::ChartFault;
use service::{Answer, Fault, Layer};
use std::{fmt, io};

/// Bytes in lower-case hexadecimal.
// `hex::encode` would need memory for the digits.
#[derive(Clone, Copy)]
struct Hex<'b>(&'b [u8]);

impl fmt::Display for Hex<'_> {
    fn fmt<W: fmt::Write>(&self, f: &mut fmt::Formatter<W>) -> fmt::Result {
        for byte in self.0 {
            write!(f, "{byte:02x}")?;
        }
        Ok(())
    }
}

/// What a refusal tells.
#[derive(Clone, Copy)]
struct Refusal {
    number: u8,
    place: usize,
    layer: Layer,
}

/// A call was refused.
impl From<Fault> for Refusal {
    fn from(fault: Fault) -> Refusal {
        Refusal {
            number: fault.number(),
            place: fault.place(),
            layer: fault.layer(),
        }
    }
}

/// A chart was not filled.
impl From<ChartFault> for Refusal {
    fn from(fault: ChartFault) -> Refusal {
        Refusal {
            number: fault.number(),
            place: fault.place(),
            layer: Layer::Chart,
        }
    }
}

impl fmt::Display for Refusal {
    fn fmt<W: fmt::Write>(&self, f: &mut fmt::Formatter<W>) -> fmt::Result {
        let Refusal {
            number,
            place,
            layer,
        } = *self;
        write!(f, "refused {number} {place} {layer}")
    }
}

/// `yes` or `no`.
fn yes_or_no(truth: bool) -> &'static str {
    if truth { "yes" } else { "no" }
}

/// An answer, and the buffer that its call was handed.
#[derive(Clone, Copy)]
struct Told<'t> {
    answer: Answer,
    buffer: &'t [u8],
}

impl fmt::Display for Told<'_> {
    fn fmt<W: fmt::Write>(&self, f: &mut fmt::Formatter<W>) -> fmt::Result {
        match self.answer {
            Answer::Done => write!(f, "done"),
            Answer::Refused(fault) => Refusal::from(fault).fmt(f),
            Answer::Yes { count, length } => {
                let tree = Hex(self.buffer.get(0..length).unwrap_or(self.buffer));
                write!(f, "yes {count} {length} {tree}")
            }
            Answer::No { count } => write!(f, "no {count}"),
            Answer::Spent { count } => write!(f, "spent {count}"),
            Answer::Long { count, length } => write!(f, "long {count} {length}"),
            Answer::Accepted => write!(f, "accepted"),
            Answer::Rejected { place } => write!(f, "rejected {place}"),
            Answer::Told { rules, goal } => {
                write!(f, "told {} {}", yes_or_no(rules), yes_or_no(goal))
            }
            Answer::NotTaken => write!(f, "not taken"),
        }
    }
}

/// Prints a line for each entry: a call's answer is the next of the answers, and the tree it found lies in the next room.
pub fn print(
    rt: &impl Print,
    entries: &[Entry<'_>],
    answers: &[Answer],
    found: &[u8],
) -> io::Result<()> {
    let mut answers = answers.iter().copied();
    let mut found = found;
    for entry in entries {
        match entry {
            Entry::Chart(Ok(())) => println!(rt; "done")?,
            Entry::Chart(Err(fault)) => println!(rt; "{}", Refusal::from(*fault))?,
            Entry::Unread => println!(rt; "unread")?,
            Entry::Call(_) | Entry::Check { .. } => {
                let (buffer, behind) = found.split_at_checked(entry.room()).unwrap_or((found, &[]));
                found = behind;
                if let Some(answer) = answers.next() {
                    println!(rt; "{}", Told { answer, buffer })?;
                }
            }
        }
    }
    Ok(())
}
