//! A chart of one release.
ghost use Rattle.std.specs.Prelude.{◌≡◌};
ghost use Rattle.charts.specs.Makes.{single};
ghost use Rattle.charts.specs.Filling.{Fresh};
ghost use Rattle.std.proofs.Common.{rules};

use crate::bits::test_bit;
use crate::chart::Chart;

/// A single release: bit `k` of `names` tells whether it carries the number `k`.
#[derive(Clone, Copy)]
pub struct Single {
    names: u64,
}

impl Single {
    /// A release that carries nothing.
    pub fn new() -> Single
        ensures { Fresh (single result.names) }
    {
        Single { names: 0 }
    }

    /// Makes this the release that carries the numbers whose bits are set.
    pub fn fill(&mut self, names: u64)
        ensures { self.new.names ≡ names }
    {
        self.names = names;
    }
}

impl Chart for Single {
    ghost value = { λ c. single c.names };

    ghost ranged = { Prim.search rules };

    ghost reflexive = { Prim.search rules };

    ghost transitive = { Prim.search rules };

    ghost persistent = { Prim.search rules };

    fn size(&self) -> usize {
        1
    }

    fn follows(&self, release: usize, later: usize) -> bool {
        later == 0 && release == 0
    }

    fn carries(&self, release: usize, number: usize) -> bool {
        release == 0 && test_bit(self.names, number)
    }
}
