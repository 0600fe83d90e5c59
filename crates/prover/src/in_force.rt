//! The rules in force, and the guard that puts them back.
ghost use Rattle.std.specs.Prelude.{◌≡◌, ◌^◌, Decides, bit_or};
ghost use Rattle.logic.specs.Sets.{Has};

use book::RecordSet;
use keys::KeyNumber;

/// The set in force, and the names begun with this very set, as a mask.
#[derive(Clone, Copy)]
pub struct InForce {
    pub set: RecordSet,
    pub begun: u64,
}

// Words of 64 bits, where those of `RecordSet` have 128: a trait of words for one shift would be longer than the shifts.
impl InForce {
    /// Tells whether the name was begun with this set.
    pub fn has_begun(&self, name: KeyNumber) -> bool
        ensures { Decides result (Has self.now.begun name.index) }
    {
        (self.begun >> name.index) & 1 == 1
    }

    /// The name begins with this set.
    pub fn begin(&mut self, name: KeyNumber)
        ensures { self.new ≡ record { set = self.old.set; begun = bit_or self.old.begun (2 ^ name.index) } }
    {
        self.begun |= 1 << name.index;
    }
}

/// Lends what is in force for a trial, and puts it back when the trial ends.
pub struct Trial<'a> {
    pub force: &'a mut InForce,
    pub saved: InForce,
}

impl Drop for Trial<'_> {
    fn drop(self)
        ensures { self.exit.0.now ≡ self.entry.saved }
    {
        *self.force = self.saved;
        let Trial { force: _, saved: _ } = self;
    }
}
