// Everyone to the collector: the plan on the table with each arc's tail and head exchanged, as definitions, with the promises about it. planner has the
// code. No code here.
#![tactic(auto)]
