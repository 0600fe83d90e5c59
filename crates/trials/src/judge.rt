//! A second judge of tree bytes, over records that are written down by hand: it goes through the bytes once, with the queries that are
//! still to be answered in a stack.
// The crate `compare` has a judge of its own: the two share no code.
use prover::{Restart, Verdict};
use std::alloc::{AllocError, Global};

/// So many records a table has at most.
const ROWS: usize = 16;

/// A record: its head's letter, and the numbers of its bodies.
pub type Row<'t> = (u8, &'t [u8]);

/// The records of a book and a goal, whose head is a letter. Each number is that of a row.
#[derive(Clone, Copy)]
pub struct Table<'t> {
    pub rows: &'t [Row<'t>],
    pub in_force: &'t [u8],
    pub goal: u8,
}

/// A name asked from a set.
// Flags, so that a query is copied, and unlike the sets of `compare`.
#[derive(Clone, Copy)]
struct Query {
    name: u8,
    in_force: [bool; ROWS],
}

impl Query {
    /// Whether the record is in force.
    fn knows(&self, number: u8) -> bool {
        self.in_force.get(usize::from(number)) == Some(&true)
    }

    /// The same with these records in force too.
    fn with(&self, numbers: &[u8]) -> Query {
        let mut in_force = self.in_force;
        for number in numbers {
            if let Some(known) = in_force.get_mut(usize::from(*number)) {
                *known = true;
            }
        }
        Query { in_force, ..*self }
    }

    /// Another name from the same set.
    fn of(&self, name: u8) -> Query {
        Query { name, ..*self }
    }
}

/// What the next byte is to say.
#[derive(Clone, Copy)]
enum Open {
    /// How the query is answered.
    Step(Query),
    /// By which record it is.
    Record(Query),
}

impl<'t> Table<'t> {
    /// The row of a number.
    fn row(&self, number: u8) -> Option<Row<'t>> {
        self.rows.get(usize::from(number)).copied()
    }

    /// The query that a goal begins with.
    fn first_query(&self) -> Query {
        let nothing = Query {
            name: self.goal,
            in_force: [false; ROWS],
        };
        nothing.with(self.in_force)
    }

    /// The bodies of the record, if it serves the query.
    fn serving(&self, number: u8, query: &Query) -> Option<&'t [u8]> {
        let (head, bodies) = self.row(number)?;
        (query.knows(number) && head == query.name).then_some(bodies)
    }

    /// Puts the bodies on the stack, the first on top.
    fn put_bodies(
        &self,
        bodies: &[u8],
        query: &Query,
        open: &mut Vec<Open>,
    ) -> Result<(), AllocError> {
        for body in bodies.iter().rev() {
            if let Some((head, supposed)) = self.row(*body) {
                open.push(Open::Step(query.with(supposed).of(head)))?;
            }
        }
        Ok(())
    }
}

/// Whether the bytes are one whole tree for the goal, and where not.
pub fn judge(
    heap: Global,
    table: &Table<'_>,
    restart: Restart,
    bytes: &[u8],
) -> Result<Verdict, AllocError> {
    let mut open = Vec::new(heap);
    open.push(Open::Step(table.first_query()))?;
    // No `?`: where bytes are rejected is an answer, and only want of memory is an error.
    for (place, byte) in bytes.iter().enumerate() {
        let Some(next) = open.pop() else {
            return Ok(Verdict::Rejected { place });
        };
        match (next, *byte, restart) {
            (Open::Step(query), 1, _) => open.push(Open::Record(query))?,
            (Open::Step(query), 2, Restart::Allowed) => {
                open.push(Open::Step(query.of(table.goal)))?
            }
            (Open::Record(query), number, _) => match table.serving(number, &query) {
                Some(bodies) => table.put_bodies(bodies, &query, &mut open)?,
                None => return Ok(Verdict::Rejected { place }),
            },
            _ => return Ok(Verdict::Rejected { place }),
        }
    }
    Ok(if open.is_empty() {
        Verdict::Accepted
    } else {
        Verdict::Rejected { place: bytes.len() }
    })
}
