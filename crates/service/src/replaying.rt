//! Replaying a list of calls.
ghost use Rattle.std.specs.Prelude.{ℕ, List, map, length};
ghost use Rattle.logic.specs.Charts.{Chart};
ghost use Rattle.law.specs.Law.{Law};
ghost use Rattle.service.specs.Calls.{chart_of};
ghost use Rattle.service.specs.Replays.{Replays};
ghost use Rattle.service.specs.Replaying.{Carries, Turns, Looks};
ghost use Rattle.service.specs.declared.state.State.TheVariants.{Open, Shut};

use crate::calls::{Answer, Call};
use crate::state::{Draft, Sealed, State};
use charts::Chart as ChartMake;
use keys::Key;
use reader::Written;

impl<K: Key + Written + Copy> Draft<'_, K> {
    /// Carries out a call; nothing where it is seal.
    fn carry_out(&mut self, call: &Call<'_>) -> Option<Answer>
        ensures { (charts : List Chart) (bytes : List ℕ) → Carries (record { same = K.same; reading = K.reading }) charts call.now bytes (Open self.old) result bytes (Open self.new) }
    {
        match call {
            Call::Add(rule) => Some(self.add(rule).into()),
            Call::Seal => None,
            _ => Some(Answer::NotTaken),
        }
    }
}

impl<K: Key + Written + Copy> Sealed<'_, K> {
    /// Carries out a call; nothing where it is reopen.
    fn carry_out<C: ChartMake>(
        &mut self,
        call: &Call<'_>,
        charts: &[C],
        tree: &mut [u8],
    ) -> Option<Answer>
        ensures { Carries (record { same = K.same; reading = K.reading }) (map C.value charts.now) call.now tree.old (Shut self.old) result tree.new (Shut self.new) }
    {
        match call {
            Call::Suppose(rule) => Some(self.suppose(rule).into()),
            Call::Withdraw => Some(self.withdraw().into()),
            Call::Ask {
                goal,
                restart,
                budget,
                ..
            } => Some(self.ask(goal, *restart, *budget, tree).into()),
            Call::Check {
                goal,
                restart,
                tree,
            } => Some(self.check(goal, *restart, tree).into()),
            Call::Look {
                goal,
                chart,
                release,
            } => Some(self.look_at(goal, charts.get(*chart), *release)),
            Call::Reopen => None,
            _ => Some(Answer::NotTaken),
        }
    }

    /// Carries out a look at a chart; where there is none, it is not taken.
    fn look_at<C: ChartMake>(&mut self, goal: &[u8], chart: Option<&C>, release: usize) -> Answer
        ensures { Looks (record { same = K.same; reading = K.reading }) goal.now release (chart_of C.value chart.entry) self.old result self.new }
    {
        // A match, tried as `map_or`: where the closure is not called, a proof sees nothing of the book that it holds.
        match chart {
            Some(chart) => self.look(goal, chart, release).into(),
            None => Answer::NotTaken,
        }
    }
}

impl<K: Key + Written + Copy> State<'_, K> {
    /// Carries out a call; nothing where it is the one by which the state turns.
    fn carry_out<C: ChartMake>(
        &mut self,
        call: &Call<'_>,
        charts: &[C],
        tree: &mut [u8],
    ) -> Option<Answer>
        ensures { Carries (record { same = K.same; reading = K.reading }) (map C.value charts.now) call.now tree.old self.old result tree.new self.new }
    {
        match self {
            State::Open(draft) => draft.carry_out(call),
            State::Shut(sealed) => sealed.carry_out(call, charts, tree),
        }
    }

    /// Seals a draft, and reopens a sealed book.
    fn turn(self) -> Self
        ensures { Turns (record { same = K.same; reading = K.reading }) self.entry result }
    {
        match self {
            State::Open(draft) => State::Shut(draft.seal()),
            State::Shut(sealed) => State::Open(sealed.reopen()),
        }
    }
}

/// Carries out a list of calls in order, from an empty draft over these slots, as many as there are answers to note. Each
/// ask is handed its own bytes of the trees, and look names one of the charts. A call that the state does not take is noted
/// as not taken and changes nothing.
pub fn replay<K: Key + Written + Copy, C: ChartMake>(
    slots: &mut [K],
    calls: &[Call<'_>],
    charts: &[C],
    trees: &mut [u8],
    answers: &mut [Answer],
)
    ensures replays { Replays (record { same = K.same; reading = K.reading }) (map C.value charts.now) (length slots.old) trees.old calls.now answers.old answers.new trees.new }
    ensures law { Law (record { same = K.same; reading = K.reading }) (length slots.old) }
{
    let count = calls.len().min(answers.len());
    let mut state = State::Open(Draft::new(slots));
    let mut byte = 0;
    // The answers are written by place: a proof sees nothing of what a loop writes through a zipped `iter_mut`.
    // The trees too are handed out by range.
    for (i, call) in calls[..count].iter().enumerate() {
        let end = byte + call.room().min(trees.len() - byte);
        answers[i] = match state.carry_out(call, charts, &mut trees[byte..end]) {
            Some(answer) => answer,
            None => {
                state = state.turn();
                Answer::Done
            }
        };
        byte = end;
    }
}
