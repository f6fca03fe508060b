// Promises about the rules, with no work to do: no row ever has two chosen tubes while at most f nodes are marked, a
// chosen tube stays chosen, and f is the limit.
#![tactic(auto)]

ghost use Rattle.agree.specs.Agreement.{OneTube, Stays, MarksGrow};
ghost use Rattle.agree.specs.Runs.{RunsEnd};

pub fn agreement()
    ensures { OneTube × Stays × MarksGrow }
{}

pub fn limit()
    ensures { RunsEnd }
{}
