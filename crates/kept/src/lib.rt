// Each call does to memory what it does in the room, and memory stays in form: promises about the rules, with no work to do.
#![tactic(auto)]

ghost use Rattle.kept.specs.Kept.{Obeyed, Refused, Allowed, StepOrNot, OneStep};
ghost use Rattle.kept.specs.Kept.{SameRoom, StaysTyped, StaysInForm};
ghost use Rattle.kept.specs.Kept.{Opens, RunsInForm, RunsInRoom, Never17, Only5, SameRun};

// What one call makes of memory.
pub fn calls()
    ensures { Obeyed × Refused × Allowed × StepOrNot × OneStep }
{}

// What every call leaves as it was.
pub fn form()
    ensures { SameRoom × StaysTyped × StaysInForm }
{}

// What an opening that was done leaves.
pub fn opening()
    ensures { Opens }
{}

// What any calls after it leave.
pub fn runs()
    ensures { RunsInForm × RunsInRoom × Never17 × Only5 × SameRun }
{}
