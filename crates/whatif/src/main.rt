//! The console program: reads lines from standard input, and prints a line for each.
#![tactic(auto)]

mod lines;

use console::limits::SLOTS;
use console::{Printed, Seal, answer_draft, answer_sealed, seal_draft};
use lines::Lines;
use reader::Name;
use service::{Draft, Sealed};
use std::io;
use std::io::{Read, Write};

fn print(rt: &HostRuntime, printed: &Printed) -> io::Result<()> {
    rt.stdout().write_all(printed.as_bytes())
}

/// Answers lines over the sealed book until the input ends.
fn answer_until_end<R: Read + Drop>(
    rt: &HostRuntime,
    lines: &mut Lines<R>,
    sealed: &mut Sealed<'_, Name>,
) -> io::Result<()> {
    for line in lines {
        print(rt, &answer_sealed(sealed, &line?))?;
    }
    Ok(())
}

/// Answers lines over a draft, and from the order to seal it on over the sealed book.
fn main(rt: HostRuntime) -> io::Result<()> {
    let mut slots = [Name::new(b""); SLOTS];
    let mut draft = Draft::new(&mut slots);
    let mut lines = Lines::new(rt.stdin());
    for line in lines.by_ref() {
        if let Some(printed) = answer_draft(&mut draft, &line?) {
            print(&rt, &printed)?;
            continue;
        }
        let Seal {
            mut sealed,
            printed,
        } = seal_draft(draft);
        print(&rt, &printed)?;
        return answer_until_end(&rt, &mut lines, &mut sealed);
    }
    Ok(())
}
