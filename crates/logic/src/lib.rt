//! What is proved of rules, success trees, charts, the search and the check of tree bytes: each function's contract states
//! theorems, so that the crate stands only with their proofs.
#![tactic(auto)]

ghost use Rattle.logic.specs.Begun.{TracksKept};
ghost use Rattle.logic.specs.Check.{RejectsRight};
ghost use Rattle.logic.specs.Examples.{ExamplesYielded};
ghost use Rattle.logic.specs.Store.{RulesRight, RestartRulesRight, RulesSound};
ghost use Rattle.logic.specs.Theorems.{Sound, GoalSound, RestartSound, Decided, Complete, RestartDecided, RestartComplete};
ghost use Rattle.logic.specs.Theorems.{FailureRight, SuccessRight, SearchRight, RestartSearchRight};
ghost use Rattle.logic.specs.Theorems.{Deterministic, Counted, Ends, Finishes, CheckRight};

/// What has a tree holds: without restart at each release of each lawful chart where the rules in force hold, with restart in the charts of a single release.
pub fn trees_are_sound()
    ensures name { Sound }
    ensures goal { GoalSound }
    ensures restart { RestartSound }
{}

/// A goal has a tree or a finite lawful chart refutes it, with restart one of a single release; so where there is no tree there is such a chart.
pub fn trees_are_complete()
    ensures decided { Decided }
    ensures refuted { Complete }
    ensures restart_decided { RestartDecided }
    ensures restart_refuted { RestartComplete }
{}

/// A search that fails has missed no tree, and one that succeeds hands out the bytes of a tree; so its answer is right of every chart.
pub fn search_is_right()
    ensures failure { FailureRight }
    ensures success { SuccessRight }
    ensures charts { SearchRight }
    ensures restart_charts { RestartSearchRight }
{}

/// Every search ends, with one outcome and one count, which does not pass the budget and is equal to it if spent; from some budget on it is not spent.
pub fn search_ends()
    ensures ends { Ends }
    ensures once { Deterministic }
    ensures counted { Counted }
    ensures finishes { Finishes }
{}

/// The bytes that answer a query are those of its trees; all other bytes are rejected, at one place.
pub fn check_is_right()
    ensures answers { CheckRight }
    ensures rejects { RejectsRight }
{}

/// The mask of the names begun with the present set decides whether a query is barred.
pub fn mask_decides()
    ensures { TracksKept }
{}

/// What the search answers over the records of rules is right of the rules.
pub fn rules_are_right()
    ensures search { RulesRight }
    ensures restart_search { RestartRulesRight }
    ensures trees { RulesSound }
{}

/// The definitions yield each line of the ten examples.
pub fn examples_stand()
    ensures { ExamplesYielded }
{}
