// How one iteration of the auction's run is made. Each function's contract equates what it does with the auction's definitions: specs/Seen.antt says which
// state of the auction the nodes and the path hold, crate forward_star (specs/Lists.antt) what the lists of outgoing arcs are, specs/Memory.antt what becomes
// of the children that nodes remember, specs/Steps.antt what a step may rely on and what it does. A function that is not lent the path, or the progress, says
// its equation for every one. That the nodes are ready for the forward star, and that a node is below their number, stands in the contracts: both are said of
// values that change from call to call, so that a type that had it would be made anew for each.
#![tactic(auto)]

pub mod bids;
pub mod reaching;
pub mod state;
pub mod steps;
