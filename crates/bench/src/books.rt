//! The books that are timed.
use std::alloc::{AllocError, Global};
use std::fmt;

/// The three kinds of books.
#[derive(Clone, Copy)]
pub enum Kind {
    /// Each name of a chain follows from the next one, asked twice.
    Doubling,
    /// As above, where each body supposes a name that nothing needs.
    Supposing,
    /// Two names in each layer, each of which follows from either of the next layer; the last layer follows from nothing.
    Layers,
}

/// What the book is called.
impl fmt::Display for Kind {
    fn fmt<W: fmt::Write>(&self, f: &mut fmt::Formatter<W>) -> fmt::Result {
        f.write_str(match self {
            Kind::Doubling => "doubling",
            Kind::Supposing => "supposing",
            Kind::Layers => "layers",
        })
    }
}

impl Kind {
    /// Every kind.
    pub const ALL: [Kind; 3] = [Kind::Doubling, Kind::Supposing, Kind::Layers];

    /// The rules of the book.
    pub fn rules(self, heap: Global) -> Result<Vec<String>, AllocError> {
        match self {
            Kind::Doubling => chain(heap, 30, |level, next| {
                format!(in heap; "n{level} if n{next}, n{next}")
            }),
            Kind::Supposing => chain(heap, 24, |level, next| {
                format!(in heap; "n{level} if (n{next} if x), (n{next} if x)")
            }),
            Kind::Layers => layers(heap, 15),
        }
    }
}

/// The rule of each level and the next one, and the last level as a fact.
fn chain<F: Fn(u8, u8) -> Result<String, AllocError>>(
    heap: Global,
    levels: u8,
    rule: F,
) -> Result<Vec<String>, AllocError>
    requires { F.IsAlwaysCallable rule }
{
    let mut rules = Vec::new(heap);
    for level in 0..levels {
        rules.push(rule(level, level + 1)?)?;
    }
    rules.push(format!(in heap; "n{levels}")?)?;
    Ok(rules)
}

/// The two names of each layer follow from either of the two of the next one.
fn layers(heap: Global, count: u8) -> Result<Vec<String>, AllocError> {
    let mut rules = Vec::new(heap);
    for layer in 0..count {
        let first = 2 * u16::from(layer);
        for head in [first, first + 1] {
            for body in [first + 2, first + 3] {
                rules.push(format!(in heap; "n{head} if n{body}")?)?;
            }
        }
    }
    Ok(rules)
}
