//! How the comparisons come out.
use std::fmt;

/// How many comparisons of a kind were made, and how many of them did not agree.
#[derive(Clone, Copy, Default)]
pub struct Count {
    made: u64,
    apart: u64,
}

impl Count {
    /// One more comparison.
    pub fn note(&mut self, agreed: bool) {
        self.made = self.made.saturating_add(1);
        if !agreed {
            self.apart = self.apart.saturating_add(1);
        }
    }
}

impl fmt::Display for Count {
    fn fmt<W: fmt::Write>(&self, f: &mut fmt::Formatter<W>) -> fmt::Result {
        let Count { made, apart } = *self;
        if apart == 0 {
            write!(f, "{made} agreed")
        } else {
            write!(f, "{apart} of {made} did NOT agree")
        }
    }
}

/// The comparisons, kind by kind.
#[derive(Clone, Copy, Default)]
pub struct Counts {
    /// Books with a goal.
    pub books: usize,
    /// Rules that the service took.
    pub rules: Count,
    /// Asks that come to yes, no, spent and long.
    pub yes: Count,
    pub no: Count,
    pub spent: Count,
    pub long: Count,
    /// Checks of trees that were found.
    pub trees: Count,
    /// Checks of changed trees that are trees too, and of those that are none.
    pub changed: Count,
    pub spoilt: Count,
    /// Looks at releases.
    pub looks: Count,
    /// Fillings of charts that are taken, and of those that are refused.
    pub filled: Count,
    pub unlawful: Count,
}

impl fmt::Display for Counts {
    fn fmt<W: fmt::Write>(&self, f: &mut fmt::Formatter<W>) -> fmt::Result {
        writeln!(f, "books: {}", self.books)?;
        writeln!(f, "rules taken: {}", self.rules)?;
        writeln!(f, "yes: {}", self.yes)?;
        writeln!(f, "no: {}", self.no)?;
        writeln!(f, "spent: {}", self.spent)?;
        writeln!(f, "long: {}", self.long)?;
        writeln!(f, "trees checked: {}", self.trees)?;
        writeln!(f, "changed trees that are trees: {}", self.changed)?;
        writeln!(f, "changed trees that are none: {}", self.spoilt)?;
        writeln!(f, "looks: {}", self.looks)?;
        writeln!(f, "charts filled: {}", self.filled)?;
        write!(f, "charts refused: {}", self.unlawful)
    }
}
