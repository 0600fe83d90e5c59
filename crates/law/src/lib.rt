//! The law over every list of calls: each function's contract is a theorem, so that the check asks for its proof.
#![tactic(auto)]

ghost use Rattle.law.specs.Example.{ExampleRuns};
ghost use Rattle.law.specs.Kept.{KeysKeptAll, RecordsKept, StandingKeptAll};
ghost use Rattle.law.specs.Law.{LawHolds};
ghost use Rattle.law.specs.OneAnswer.{OneAnswer};
ghost use Rattle.law.specs.OneRun.{OneRun};
ghost use Rattle.law.specs.Runs.{RunRight};

/// The keys of a rule get numbers behind the others.
pub fn keys_kept_stands<K>()
    ensures { KeysKeptAll K }
{}

/// Records come behind the others.
pub fn records_kept_stands()
    ensures { RecordsKept }
{}

/// What stands grows at its end and is cut back there.
pub fn standing_kept_stands<K>()
    ensures { StandingKeptAll K }
{}

/// Each call has one answer.
pub fn one_answer_stands<K>()
    ensures { OneAnswer K }
{}

/// Along every run the tally holds what was entered.
pub fn run_right_stands<K>()
    ensures { RunRight K }
{}

/// Each list of calls has one run.
pub fn one_run_stands<K>()
    ensures { OneRun K }
{}

/// The law holds of every run.
pub fn law_stands<K>()
    ensures { LawHolds K }
{}

/// The worked example is a run.
pub fn example_stands()
    ensures { ExampleRuns }
{}
