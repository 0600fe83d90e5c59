//! Looking at a chart.
ghost use Rattle.std.specs.Prelude.{[]};
ghost use Rattle.law.specs.Calls.{look as «looking»};
ghost use Rattle.service.specs.Looking.{looked};
ghost use Rattle.service.specs.Represents.{Does};
ghost use Rattle.service.specs.declared.state.State.TheVariants.{Shut};

use crate::fault::Fault;
use crate::state::Sealed;
use charts::{Chart, Holding, hold_at};
use keys::Key;
use reader::Written;

impl<'a, K: Key + Written + Copy> Sealed<'a, K> {
    /// Tells whether at a release of a chart all rules in force hold, and whether a goal does.
    pub fn look<C: Chart>(
        &mut self,
        goal: &[u8],
        chart: &C,
        release: usize,
    ) -> Result<Holding, Fault>
        ensures { Does (record { same = K.same; reading = K.reading }) («looking» goal.now (C.value chart.now) release) (Shut self.old) (looked result) [] (Shut self.new) }
    {
        self.with_goal(
            goal,
            &mut |book, number| { hold_at(chart, book, book.in_force(), number, release) },
        )?
        .ok_or(Fault::Release)
    }
}
