// Demand 3, carried by a function that does nothing: each promise is proved for every run.
#![tactic(auto)]

ghost use Rattle.demand.specs.Demand.{OneTube, Stays, BookGrows, Clerk, OneLine, FormKept, NotEmpty};

pub fn demand_three()
    ensures one_tube { OneTube }
    ensures chosen_stays { Stays }
    ensures book_grows { BookGrows }
    ensures one_clerk { Clerk }
    ensures one_line { OneLine }
    ensures form_kept { FormKept }
    ensures not_empty { NotEmpty }
{}
