// The printed sheet, piece by piece: from an input's plan (crates/input) and the order of its path lines (crates/path_order) to the bytes that are
// written. crates/sheet says which lines a sheet has, and crates/sheet_lines puts a line; here it is found which line comes next. A piece is the next
// lines, as many as fit into the lent buffer.
#![tactic(auto)]

mod lines;
mod pieces;
mod plan;

pub use plan::{Cursor, FinishedPlan, Piece};
