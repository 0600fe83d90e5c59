//! Small charts, judged by going through all releases.
use crate::rules::Rule;
use std::alloc::{AllocError, Global};

/// The releases of the largest of these charts.
pub const RELEASES: u32 = 3;

/// A release of a chart: a word of its followers and a word of what it carries, bit by bit.
#[derive(Clone, Copy)]
pub struct Release {
    pub followers: u64,
    pub names: u64,
}

impl Release {
    /// Whether the release at a place follows this one.
    fn is_followed_by(&self, place: usize) -> bool {
        has(self.followers, place)
    }

    /// Whether it carries a name.
    fn carries(&self, name: u8) -> bool {
        has(self.names, usize::from(name))
    }

    /// Whether it carries all that one before it does.
    fn keeps(&self, earlier: &Release, names: u8) -> bool {
        (0..names).all(|name| !earlier.carries(name) || self.carries(name))
    }
}

/// A chart of a few releases.
#[derive(Drop)]
pub struct World {
    pub releases: Vec<Release>,
}

/// A law of charts, with the number of its refusal.
// Not the `ChartFault` of `charts`: the slow judge of charts shares no type with it.
#[derive(Clone, Copy)]
pub enum Law {
    /// Each release follows itself.
    Itself = 42,
    /// Each follower leads on.
    Onward = 43,
    /// Each follower keeps what the release carries.
    Kept = 44,
}

/// The law that a chart breaks, and the lowest release that breaks it.
#[derive(Clone, Copy)]
pub struct Broken {
    pub law: Law,
    pub release: usize,
}

/// How many numbers have so many bits.
pub fn ways(bits: u32) -> u64 {
    2u64.saturating_pow(bits)
}

/// The part of a number at a place, where each has so many bits.
fn part(number: u64, place: u32, width: u32) -> u64 {
    let ahead = number.checked_shr(place.saturating_mul(width)).unwrap_or(0);
    ahead & ways(width).saturating_sub(1)
}

/// Whether a bit of a word is set.
fn has(word: u64, bit: usize) -> bool {
    u32::try_from(bit).is_ok_and(|bit| part(word, bit, 1) == 1)
}

impl World {
    /// The chart of a size whose followers, and whose names, are written release by release in the bits of two numbers.
    pub fn of(
        heap: Global,
        size: u32,
        followers: u64,
        names: u64,
        width: u32,
    ) -> Result<World, AllocError> {
        let releases = (0..size)
            .map(|place| Release {
                followers: part(followers, place, size),
                names: part(names, place, width),
            })
            .collect(heap)?;
        Ok(World { releases })
    }

    /// Whether the followers of a follower follow this release.
    // By place: followers are bits at places.
    fn leads_on(&self, release: &Release, follower: &Release) -> bool {
        (0..self.releases.len()).all(|last| !follower.is_followed_by(last)
            || release.is_followed_by(last))
    }

    /// Whether the release at a place keeps a law over so many names.
    fn is_lawful(&self, law: Law, place: usize, release: &Release, names: u8) -> bool {
        let mut followers = self
            .releases
            .iter()
            .enumerate()
            .filter(|(later, _)| release.is_followed_by(*later))
            .map(|(_, follower)| follower);
        match law {
            Law::Itself => release.is_followed_by(place),
            Law::Onward => followers.all(|follower| self.leads_on(release, follower)),
            Law::Kept => followers.all(|follower| follower.keeps(release, names)),
        }
    }

    /// The law that the chart breaks over so many names, each law tried on all releases before the next.
    pub fn broken(&self, names: u8) -> Option<Broken> {
        [Law::Itself, Law::Onward, Law::Kept]
            .iter()
            .find_map(|law| {
                let (release, _) = self.releases.iter().enumerate().find(|(
                    place,
                    release,
                )| !self.is_lawful(*law, *place, release, names))?;
                Some(Broken { law: *law, release })
            })
    }

    /// Whether a rule holds at a release: each follower at which all its bodies hold carries its head.
    // A loop, tried as `all`: its closure is not shown callable where the recursion runs through it.
    #[cycle(all_hold_holds)]
    pub fn holds(&self, rule: &Rule, release: &Release) -> bool {
        for (place, later) in self.releases.iter().enumerate() {
            if release.is_followed_by(place)
                && !later.carries(rule.head)
                && self.all_hold(&rule.bodies, later)
            {
                return false;
            }
        }
        true
    }

    /// Whether all these rules hold at a release.
    // A loop, as in `holds`.
    #[cycle(all_hold_holds)]
    fn all_hold(&self, rules: &[Rule], release: &Release) -> bool {
        for rule in rules {
            if !self.holds(rule, release) {
                return false;
            }
        }
        true
    }
}

/// All lawful charts of up to three releases over so many names.
// No filter over all charts: names are gone through only where the followers are lawful.
pub fn lawful(heap: Global, names: u8) -> Result<Vec<World>, AllocError> {
    let width = u32::from(names);
    let mut worlds = Vec::new(heap);
    for size in 1..=RELEASES {
        for followers in 0..ways(size.saturating_mul(size)) {
            if World::of(heap, size, followers, 0, 0)?.broken(0).is_some() {
                continue;
            }
            for carried in 0..ways(size.saturating_mul(width)) {
                let world = World::of(heap, size, followers, carried, width)?;
                if world.broken(names).is_none() {
                    worlds.push(world)?;
                }
            }
        }
    }
    Ok(worlds)
}
