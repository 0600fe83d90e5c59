//! Why a chart is not made of what it is given.
ghost use Rattle.std.specs.Prelude.{◌≡◌};
ghost use Rattle.charts.specs.Faults.{fault_number, fault_place};

/// Why a chart is not made; a broken law comes with the lowest release that breaks it.
#[derive(Clone, Copy, PartialEq, Debug)]
pub enum ChartFault {
    /// The number of releases is out of range, or the lists do not fit it.
    Misfit,
    /// The release does not follow itself.
    Irreflexive(usize),
    /// What follows a follower of the release does not follow it.
    Intransitive(usize),
    /// A follower of the release does not carry all that the release carries.
    Forgetful(usize),
}

impl ChartFault {
    /// The number of the refusal.
    pub fn number(self) -> u8
        ensures { result ≡ fault_number self }
    {
        match self {
            ChartFault::Misfit => 41,
            ChartFault::Irreflexive(_) => 42,
            ChartFault::Intransitive(_) => 43,
            ChartFault::Forgetful(_) => 44,
        }
    }

    /// The place of the refusal.
    pub fn place(self) -> usize
        ensures { result ≡ fault_place self }
    {
        match self {
            ChartFault::Misfit => 0,
            ChartFault::Irreflexive(release)
            | ChartFault::Intransitive(release)
            | ChartFault::Forgetful(release) => release,
        }
    }
}
