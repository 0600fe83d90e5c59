//! Looks of the service beside those of the slow judge of charts.
use crate::cases::Case;
use crate::comparing::Comparison;
use crate::forms::Form;
use crate::rules::Rule;
use crate::worlds::{Broken, RELEASES, Release, World, lawful, ways};
use charts::{ChartFault, Holding, Map};
use service::Sealed;
use std::alloc::{AllocError, Global};

/// A chart as both sides know it.
#[derive(Drop)]
pub struct Pair {
    world: World,
    map: Map,
}

/// All lawful charts of up to three releases over so many names.
pub fn pairs(heap: Global, names: u8) -> Result<Vec<Pair>, AllocError> {
    let mut pairs = Vec::new(heap);
    for world in lawful(heap, names)? {
        let mut map = Map::new();
        // A chart that were refused would show in the looks: its map would stay one bare release.
        let _ = fill(heap, &mut map, &world)?;
        pairs.push(Pair { world, map })?;
    }
    Ok(pairs)
}

/// Fills a map as the chart says.
// Two lists, as `Map::fill` takes them.
fn fill(heap: Global, map: &mut Map, world: &World) -> Result<Result<(), ChartFault>, AllocError> {
    let releases = world.releases.iter();
    let followers: Vec<u64> = releases.map(|release| release.followers).collect(heap)?;
    let releases = world.releases.iter();
    let names: Vec<u64> = releases.map(|release| release.names).collect(heap)?;
    Ok(map.fill(&followers, &names))
}

/// Whether a refusal of a filling has the number and place of the broken law.
fn is_fault_of(fault: ChartFault, broken: Broken) -> bool {
    fault.number() == broken.law as u8 && fault.place() == broken.release
}

/// What holds at a release: all rules of the book, and the goal.
fn holding_at(world: &World, case: &Case, goal: &Rule, release: &Release) -> Holding {
    Holding {
        rules: case.in_book().iter().all(|rule| world.holds(rule, release)),
        goal: world.holds(goal, release),
    }
}

/// So many names are carried in the charts that are filled.
const FILLED_NAMES: u8 = 2;

impl Comparison {
    /// Fills a map, and compares what is said.
    fn compare_filling(&mut self, world: &World) -> Result<(), AllocError> {
        let filled = fill(self.heap, &mut Map::new(), world)?;
        match world.broken(FILLED_NAMES) {
            None => self.counts.filled.note(filled.is_ok()),
            Some(broken) => self
                .counts
                .unlawful
                .note(filled.is_err_and(|fault| is_fault_of(fault, broken))),
        }
        Ok(())
    }

    /// Fills maps with all charts of up to three releases, lawful or not, over two names.
    pub fn compare_fillings(&mut self) -> Result<(), AllocError> {
        let width = u32::from(FILLED_NAMES);
        for size in 1..=RELEASES {
            for followers in 0..ways(size.saturating_mul(size)) {
                for names in 0..ways(size.saturating_mul(width)) {
                    let world = World::of(self.heap, size, followers, names, width)?;
                    self.compare_filling(&world)?;
                }
            }
        }
        Ok(())
    }

    /// Looks at each release of each chart.
    pub fn compare_looks<K: Form>(
        &mut self,
        book: &mut Sealed<'_, K>,
        case: &Case,
        goal: &Rule,
        bytes: &[u8],
        pairs: &[Pair],
    ) {
        for Pair { world, map } in pairs {
            for (place, release) in world.releases.iter().enumerate() {
                let wanted = holding_at(world, case, goal, release);
                let got = book.look(bytes, map, place);
                self.counts
                    .looks
                    .note(got.is_ok_and(|holding| holding == wanted));
            }
        }
    }
}
