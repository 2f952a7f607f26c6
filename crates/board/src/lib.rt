// The ballot: sets of stations, the board that a rule is shown, and what a rule is.
#![tactic(auto)]

pub mod board;
pub mod rule;
pub mod sets;

pub use board::{Board, is_group, voting};
pub use rule::Rule;
