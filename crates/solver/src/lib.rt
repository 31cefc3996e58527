// The code of the auction's run. Each function's contract equates what it does with the auction's definitions, as in crate steps, whose
// steps a run makes: specs/Runs.antt says what a run leaves behind. A run is one call of run::run on a fresh state, RunState::fresh.
#![tactic(auto)]

pub mod run;
