//! A chart whose releases stand in a row.
ghost use Rattle.std.specs.Prelude.{◌≡◌, ◌≤◌, OnOk, OnErr, IfErr};
ghost use Rattle.charts.specs.Limits.{most_releases};
ghost use Rattle.charts.specs.Makes.{lined};
ghost use Rattle.charts.specs.Faults.{fault_number, fault_place};
ghost use Rattle.charts.specs.Filling.{Fresh, LineFits};
ghost use Rattle.std.proofs.Common.{rules};

use crate::chart::Chart;
use crate::fault::ChartFault;
use crate::limits::RELEASES;
use keys::NAMES;

/// A line of releases: `first[x]` is the first release that carries the number `x`; from `size` on, none does.
// No type of its own for a size from 1 to 64: a size is handed in as a number and asked for as one.
#[derive(Clone, Copy)]
pub struct Line {
    size: usize,
    first: [u8; NAMES],
    ghost some: { 1 ≤ size },
    ghost few: { size ≤ most_releases },
}

impl Line {
    /// One release, which carries nothing.
    pub fn new() -> Line
        ensures { Fresh (lined result.size result.first) }
    {
        Line {
            size: 1,
            first: [1; NAMES],
        }
    }

    /// Makes this the line of `size` releases with these first releases; a refused line stays as it was.
    pub fn fill(&mut self, size: usize, first: &[u8]) -> Result<(), ChartFault>
        ensures fits { OnOk result (LineFits size first.now) }
        ensures size { OnOk result (self.new.size ≡ size) }
        ensures first { OnOk result (self.new.first ≡ first.now) }
        ensures misfit { OnErr result (LineFits size first.now → ⊥) }
        ensures number { IfErr result (λ e. fault_number e ≡ 41) }
        ensures place { IfErr result (λ e. fault_place e ≡ 0) }
        ensures kept { OnErr result (self.new ≡ self.old) }
    {
        if size < 1 || size > RELEASES {
            return Err(ChartFault::Misfit);
        }
        let first = first.try_into().map_err(|_| ChartFault::Misfit)?;
        *self = Line { size, first };
        Ok(())
    }
}

impl Chart for Line {
    ghost value = { λ c. lined c.size c.first };

    ghost ranged = { Prim.search rules };

    ghost reflexive = { Prim.search rules };

    ghost transitive = { Prim.search rules };

    ghost persistent = { Prim.search rules };

    fn size(&self) -> usize {
        self.size
    }

    fn follows(&self, release: usize, later: usize) -> bool {
        later < self.size && release <= later
    }

    fn carries(&self, release: usize, number: usize) -> bool {
        release < self.size && number < NAMES && self.first[number] as usize <= release
    }
}
