//! Times questions to three books. With no words it shows what the questions come to; with a word it asks them again and again at the
//! full budget, and shows the nanoseconds that a query takes.
#![tactic(auto)]

mod books;

use anyhow::anyhow;
use books::Kind;
use prover::{Outcome, QUERIES, Restart};
use reader::Name;
use service::{Draft, Fault, Sealed};
use std::time::Instant;
use std::{env, fmt, io};

/// The budget where nothing is timed.
const SMALL_BUDGET: u32 = 100_000;
/// How often a question is asked where it is timed.
const REPEATS: u32 = 50;
/// No book has more names.
const SLOTS: usize = 64;
/// The bytes of the tree buffer.
const ROOM: usize = 4_096;

/// The question whether `n0` follows in a kind of book, without restart or with it.
// Without the book: a question is printed, and copied into the step.
#[derive(Clone, Copy)]
struct Question {
    kind: Kind,
    restart: Restart,
}

impl fmt::Display for Question {
    fn fmt<W: fmt::Write>(&self, f: &mut fmt::Formatter<W>) -> fmt::Result {
        let kind = self.kind;
        match self.restart {
            Restart::Forbidden => write!(f, "{kind}"),
            Restart::Allowed => write!(f, "{kind} with restart"),
        }
    }
}

impl Question {
    fn ask(self, book: &mut Sealed<'_, Name>, budget: u32) -> Result<Outcome, Fault> {
        let mut tree = [0; ROOM];
        book.ask(b"n0", self.restart, budget, &mut tree)
    }

    /// Asks again and again, and gives the number of all queries.
    fn ask_often(self, book: &mut Sealed<'_, Name>) -> Result<u64, Fault> {
        (0..REPEATS).try_fold(0u64, |total, _| {
            let count = count(self.ask(book, QUERIES)?);
            Ok(total.saturating_add(u64::from(count)))
        })
    }
}

/// How many queries were counted.
fn count(outcome: Outcome) -> u32 {
    match outcome {
        Outcome::Yes { count, .. }
        | Outcome::No { count }
        | Outcome::Spent { count }
        | Outcome::Long { count, .. } => count,
    }
}

fn show(rt: &HostRuntime, question: Question, book: &mut Sealed<'_, Name>) -> io::Result<()> {
    match question.ask(book, SMALL_BUDGET) {
        Ok(Outcome::Yes { count, len }) => println!(rt; "{question}: yes {count} {len}"),
        Ok(Outcome::No { count }) => println!(rt; "{question}: no {count}"),
        Ok(Outcome::Spent { count }) => println!(rt; "{question}: spent {count}"),
        Ok(Outcome::Long { count, len }) => println!(rt; "{question}: long {count} {len}"),
        Err(_) => println!(rt; "{question}: refused"),
    }
}

fn time(rt: &HostRuntime, question: Question, book: &mut Sealed<'_, Name>) -> io::Result<()> {
    let start = Instant::now(rt)?;
    let queries = question.ask_often(book);
    let tenths = start.elapsed(rt)?.as_nanos() * 10;
    let per_query = queries
        .ok()
        .and_then(|queries| tenths.checked_div(u128::from(queries)));
    match per_query {
        Some(tenths) => {
            let whole = tenths / 10;
            let part = tenths % 10;
            println!(rt; "{question}: {whole}.{part} ns a query")
        }
        None => println!(rt; "{question}: refused"),
    }
}

/// Takes the step with each question: each kind of book, without restart and with it.
// A book borrows slots of its own turn of the loop, so the step comes to the book.
fn run<F>(rt: &HostRuntime, step: F) -> anyhow::Result<()>
where
    F: Fn(&HostRuntime, Question, &mut Sealed<'_, Name>) -> io::Result<()>,
    requires { F.IsAlwaysCallable step }
{
    for kind in Kind::ALL {
        let mut slots = [Name::new(b""); SLOTS];
        let mut draft = Draft::new(&mut slots);
        for rule in kind.rules(rt.alloc())? {
            draft
                .add(rule.as_bytes())
                .map_err(|_| anyhow!("a rule is refused"))?;
        }
        let mut book = draft.seal();
        for restart in [Restart::Forbidden, Restart::Allowed] {
            step(rt, Question { kind, restart }, &mut book)?;
        }
    }
    Ok(())
}

fn main(rt: HostRuntime) -> anyhow::Result<()> {
    // Timing is asked for by any word behind the program's name.
    let timed = env::args(&rt)?.nth(1).is_some();
    if timed {
        run(&rt, time)
    } else {
        run(&rt, show)
    }
}
