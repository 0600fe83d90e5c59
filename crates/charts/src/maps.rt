//! A chart that is given release by release.
ghost use Rattle.std.specs.Prelude.{◌≡◌, ℕ, ◌≤◌, length, OnOk, OnErr, IfOk, IfErr, slice_index};
ghost use Rattle.charts.specs.Limits.{most_releases};
ghost use Rattle.charts.specs.Faults.{fault_number, fault_place};
ghost use Rattle.charts.specs.Laws.{ThreeLaws};
ghost use Rattle.charts.specs.Makes.{charted};
ghost use Rattle.charts.specs.Filling.{Fresh, listed, MapFits, Refused};
ghost use Rattle.charts.specs.ChartLaws.{laws_of};
ghost use Rattle.std.proofs.Common.{rules};

use crate::bits::test_bit;
use crate::chart::Chart;
use crate::fault::ChartFault;
use crate::limits::RELEASES;
use crate::lists::Lists;

/// A map: bit `v` of `followers[w]` tells whether `v` follows `w`, and bit `x` of `names[w]` whether `w` carries `x`.
// Two arrays, as callers hand in two lists: each is copied as a whole.
// No type of its own for a size from 1 to 64: a size is handed in as a number and asked for as one.
#[derive(Clone, Copy)]
pub struct Map {
    size: usize,
    followers: [u64; RELEASES],
    names: [u64; RELEASES],
    ghost some: { 1 ≤ size },
    ghost few: { size ≤ most_releases },
    ghost laws: { ∥ ThreeLaws (charted size followers names) ∥₁ },
}

impl Chart for Map {
    ghost value = { λ c. charted c.size c.followers c.names };

    ghost ranged = { Prim.search rules };

    ghost reflexive = { λ m. (laws_of (charted m.size m.followers m.names) m.laws).reflexive };

    ghost transitive = { λ m. (laws_of (charted m.size m.followers m.names) m.laws).transitive };

    ghost persistent = { λ m. (laws_of (charted m.size m.followers m.names) m.laws).persistent };

    fn size(&self) -> usize {
        self.size
    }

    fn follows(&self, release: usize, later: usize) -> bool {
        later < self.size && release < self.size && test_bit(self.followers[release], later)
    }

    fn carries(&self, release: usize, number: usize) -> bool {
        release < self.size && test_bit(self.names[release], number)
    }
}

/// The words, with zeros after them.
fn padded(words: &[u64]) -> [u64; RELEASES]
    requires { length words.now ≤ most_releases }
    ensures { (k : ℕ) → slice_index result k ≡ slice_index words.now k }
{
    let mut all = [0; RELEASES];
    all[..words.len()].copy_from_slice(words);
    all
}

impl Map {
    /// One release, which carries nothing.
    pub fn new() -> Map
        ensures { Fresh (charted result.size result.followers result.names) }
    {
        let mut followers = [0; RELEASES];
        followers[0] = 1;
        Map {
            size: 1,
            followers,
            names: [0; RELEASES],
        }
    }

    /// The map of these lists, or why there is none.
    fn made(followers: &[u64], names: &[u64]) -> Result<Map, ChartFault>
        ensures fits { OnOk result (MapFits followers.now names.now) }
        ensures same { IfOk result (λ m. charted m.size m.followers m.names ≡ listed followers.now names.now) }
        ensures refused { IfErr result (λ e. Refused followers.now names.now (fault_number e) (fault_place e)) }
    {
        let lists = Lists::new(followers, names)?;
        lists.check()?;
        Ok(Map {
            size: followers.len(),
            followers: padded(followers),
            names: padded(names),
        })
    }

    /// Makes this the map of these lists; a refused map stays as it was.
    pub fn fill(&mut self, followers: &[u64], names: &[u64]) -> Result<(), ChartFault>
        ensures fits { OnOk result (MapFits followers.now names.now) }
        ensures filled { OnOk result (charted self.new.size self.new.followers self.new.names ≡ listed followers.now names.now) }
        ensures refused { IfErr result (λ e. Refused followers.now names.now (fault_number e) (fault_place e)) }
        ensures kept { OnErr result (self.new ≡ self.old) }
    {
        *self = Map::made(followers, names)?;
        Ok(())
    }
}
