//! A chart of any make.
ghost use Rattle.std.specs.Prelude.{◌≡◌};
ghost use Rattle.charts.specs.AnyMake.{made};
ghost use Rattle.charts.specs.ChartOfAnyMakeLemmas.{laws};
ghost use Rattle.std.proofs.Common.{rules};

use crate::chart::Chart;
use crate::lines::Line;
use crate::maps::Map;
use crate::singles::Single;

/// A chart of one of the three makes.
#[derive(Clone, Copy)]
pub enum AnyChart {
    Single(Single),
    Line(Line),
    Map(Map),
}

// One match for each question: a function may not hand out the make as a `dyn Chart`, which would need only one.
impl Chart for AnyChart {
    ghost value = { λ c. made c };

    ghost ranged = { Prim.search rules };

    ghost reflexive = { λ c. (laws c).reflexive };

    ghost transitive = { λ c. (laws c).transitive };

    ghost persistent = { λ c. (laws c).persistent };

    fn size(&self) -> usize {
        match self {
            AnyChart::Single(chart) => chart.size(),
            AnyChart::Line(chart) => chart.size(),
            AnyChart::Map(chart) => chart.size(),
        }
    }

    fn follows(&self, release: usize, later: usize) -> bool {
        match self {
            AnyChart::Single(chart) => chart.follows(release, later),
            AnyChart::Line(chart) => chart.follows(release, later),
            AnyChart::Map(chart) => chart.follows(release, later),
        }
    }

    fn carries(&self, release: usize, number: usize) -> bool {
        match self {
            AnyChart::Single(chart) => chart.carries(release, number),
            AnyChart::Line(chart) => chart.carries(release, number),
            AnyChart::Map(chart) => chart.carries(release, number),
        }
    }
}
