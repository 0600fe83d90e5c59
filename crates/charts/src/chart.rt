//! What a chart is: releases, which release follows which, and which numbers each carries.
ghost use Rattle.std.specs.Prelude.{◌≡◌};
ghost use Rattle.logic.specs.Charts.{Chart as ChartValue, Lawful};
ghost use Rattle.charts.specs.Laws.{Ranged, Reflexive, Transitive, Persistent};

/// A chart: its answers come out of one value, and no question changes a later answer.
pub trait Chart {
    /// The chart as a value.
    ghost value: { Self → ChartValue };

    /// How many releases there are.
    fn size(&self) -> usize
        ensures { result ≡ (value self.now).size };

    /// Tells whether `release` is followed by `later`, that is, whether `later` follows it.
    fn follows(&self, release: usize, later: usize) -> bool
        ensures { result ≡ (value self.now).follows release later };

    /// Tells whether `release` carries `number`.
    fn carries(&self, release: usize, number: usize) -> bool
        ensures { result ≡ (value self.now).carries release number };

    /// There are 1 to 64 releases, and what lies outside the range is answered no.
    ghost ranged: { (c : Self) → Ranged (value c) };

    /// A release follows itself.
    ghost reflexive: { (c : Self) → Reflexive (value c) };

    /// What follows a follower follows.
    ghost transitive: { (c : Self) → Transitive (value c) };

    /// What a release carries each follower carries.
    ghost persistent: { (c : Self) → Persistent (value c) };
}

/// The laws of a chart make its value lawful, as rules are judged by.
pub fn charts_are_lawful<C: Chart>(chart: &C)
    ensures { Lawful (C.value chart.now) }
{}
