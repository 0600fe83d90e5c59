//! Lines of bytes from a reader.
ghost use Rattle.std.specs.Iterator.{at_most};

use console::Line;
use std::io;
use std::io::{ErrorKind, Read};

/// How many bytes are read at a time.
const CHUNK: usize = 4_096;

/// A reader, and the bytes that were read from it and are still to be taken in.
// Not a `BufReader`: that asks the heap for its bytes, and the console takes no memory that it could be refused.
#[derive(Drop)]
struct Source<R> {
    reader: R,
    bytes: [u8; CHUNK],
    at: usize,
    end: usize,
}

impl<R: Read> Source<R> {
    /// The bytes that are still to be taken in, read on where there are none; none where the input ends.
    fn fill(&mut self) -> io::Result<&[u8]> {
        if self.at >= self.end {
            self.end = read_on(&mut self.reader, &mut self.bytes)?;
            self.at = 0;
        }
        Ok(self.bytes.get(self.at..self.end).unwrap_or(&[]))
    }

    /// Takes in the next line; nothing where the input ends.
    // The line is lent: handed on in a `Result` it would be copied each time.
    fn take_in(&mut self, line: &mut Line) -> io::Result<Option<()>> {
        for _ in 0..u64::MAX {
            let bytes = self.fill()?;
            if bytes.is_empty() {
                break;
            }
            let feed = bytes.iter().position(|byte| *byte == b'\n');
            let kept = feed.unwrap_or(bytes.len());
            line.extend_from_slice(&bytes[..kept]);
            self.at = self.at.saturating_add(kept);
            if feed.is_some() {
                self.at = self.at.saturating_add(1);
                return Ok(Some(()));
            }
        }
        Ok((!line.is_empty()).then_some(()))
    }
}

/// Reads more bytes, again where a signal interrupts it.
fn read_on<R: Read>(reader: &mut R, bytes: &mut [u8]) -> io::Result<usize> {
    for _ in 0..u64::MAX {
        match reader.read(bytes) {
            Err(e) if e.kind() == ErrorKind::Interrupted => {}
            read => return read,
        }
    }
    Ok(0)
}

/// The lines of a reader, without their line feeds.
// Not `BufRead::split`: a line of any length is taken in within the memory of one `Line`.
#[derive(Drop)]
pub struct Lines<R> {
    source: Source<R>,
    // Input may never end, and a loop over it has to: no more lines than these are read.
    left: u64,
}

impl<R: Read> Lines<R> {
    /// All lines that the reader has left.
    pub fn new(reader: R) -> Lines<R> {
        Lines {
            source: Source {
                reader,
                bytes: [0; CHUNK],
                at: 0,
                end: 0,
            },
            left: u64::MAX,
        }
    }
}

impl<R: Read + Drop> Iterator for Lines<R> {
    type Item = io::Result<Line>;

    ghost remaining = { λ s. at_most s.left };

    fn next(&mut self) -> Option<io::Result<Line>> {
        self.left = self.left.checked_sub(1)?;
        let mut line = Line::new();
        // A match: a closure would move the line once more.
        match self.source.take_in(&mut line).transpose()? {
            Ok(()) => Some(Ok(line)),
            Err(e) => Some(Err(e)),
        }
    }
}
