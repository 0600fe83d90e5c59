//! The lists that a map is made of, and the laws in them.
ghost use Rattle.std.specs.Prelude.{◌≡◌, ℕ, ◌<◌, ◌≤◌, length, Decides, OnOk, IfOk, IfErr};
ghost use Rattle.charts.specs.Limits.{most_releases};
ghost use Rattle.charts.specs.Faults.{fault_number, fault_place};
ghost use Rattle.charts.specs.Laws.{ThreeLaws, ReflexiveAt, TransitiveAt, PersistentAt};
ghost use Rattle.charts.specs.Filling.{listed, AllYes, LowestNo, Refused};

use crate::bits::{is_within, low_bits, test_bit};
use crate::fault::ChartFault;
use crate::limits::RELEASES;

/// For each release the word of its followers and the word of its names; there are 1 to 64 releases.
// No type of its own for a size from 1 to 64: a size is handed in as a number and asked for as one.
#[derive(Clone, Copy)]
pub(crate) struct Lists<'l> {
    pub(crate) followers: &'l [u64],
    pub(crate) names: &'l [u64],
    ghost some: { 1 ≤ length followers.now },
    ghost few: { length followers.now ≤ most_releases },
    ghost matching: { length names.now ≡ length followers.now },
}

impl<'l> Lists<'l> {
    /// The lists, if they are of one length, 1 to 64.
    pub(crate) fn new(followers: &'l [u64], names: &'l [u64]) -> Result<Lists<'l>, ChartFault>
        ensures followers { IfOk result (λ lists. lists.followers.now ≡ followers.now) }
        ensures names { IfOk result (λ lists. lists.names.now ≡ names.now) }
        ensures refused { IfErr result (λ e. Refused followers.now names.now (fault_number e) (fault_place e)) }
    {
        let size = followers.len();
        if size < 1 || size > RELEASES || names.len() != size {
            return Err(ChartFault::Misfit);
        }
        Ok(Lists { followers, names })
    }

    /// Checks the laws one after the other; a refusal names the lowest release that breaks the first that fails.
    pub(crate) fn check(&self) -> Result<(), ChartFault>
        ensures lawful { OnOk result (ThreeLaws (listed self.now.followers.now self.now.names.now)) }
        ensures refused { IfErr result (λ e. Refused self.now.followers.now self.now.names.now (fault_number e) (fault_place e)) }
    {
        let size = self.followers.len();
        all_pass(size, |w| self.is_reflexive(w), ChartFault::Irreflexive)?;
        all_pass(size, |w| self.is_transitive(w), ChartFault::Intransitive)?;
        all_pass(size, |w| self.is_persistent(w), ChartFault::Forgetful)
    }

    // Only `check` asks the three tests of one release, and `all_pass` hands out no number past the lists.

    /// Tells whether the release follows itself.
    fn is_reflexive(&self, release: usize) -> bool
        requires { release < length self.now.followers.now }
        ensures { Decides result (ReflexiveAt (listed self.now.followers.now self.now.names.now) release) }
    {
        test_bit(self.followers[release], release)
    }

    /// Tells whether what follows a follower of the release follows it.
    fn is_transitive(&self, release: usize) -> bool
        requires { release < length self.now.followers.now }
        ensures { Decides result (TransitiveAt (listed self.now.followers.now self.now.names.now) release) }
    {
        let live = low_bits(self.followers.len());
        let own = self.followers[release] & live;
        self.followers.iter().enumerate().all(|(later, word)| !test_bit(own, later)
            || is_within(*word & live, own))
    }

    /// Tells whether each follower of the release carries what the release does.
    fn is_persistent(&self, release: usize) -> bool
        requires { release < length self.now.followers.now }
        ensures { Decides result (PersistentAt (listed self.now.followers.now self.now.names.now) release) }
    {
        let own = self.followers[release];
        let carried = self.names[release];
        self.names.iter().enumerate().all(|(later, names)| !test_bit(own, later)
            || is_within(carried, *names))
    }
}

/// Tries the numbers below `size`; a refusal is made of the lowest that fails the test.
fn all_pass<F: Fn(usize) -> bool, G: Fn(usize) -> ChartFault>(
    size: usize,
    test: F,
    fault: G,
) -> Result<(), ChartFault>
    requires testable { (k : ℕ) → k < size → F.pre test k }
    requires refusable { G.IsAlwaysCallable fault }
    ensures all { OnOk result (AllYes (F.post test) size) }
    ensures lowest { IfErr result (λ e. (k : ℕ) × LowestNo (F.post test) size k × G.post fault k e) }
{
    let failing = (0..size).find(
        |k|
            requires { F.pre test k.now }
        { !test(*k) },
    );
    match failing {
        Some(k) => Err(fault(k)),
        None => Ok(()),
    }
}
