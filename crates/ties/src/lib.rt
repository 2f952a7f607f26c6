// Who goes first among equals: the order of the messages of one wave.
#![tactic(auto)]

pub mod orders;
pub mod size;
pub mod tie;

pub use orders::{ByClass, ByStation, ByTurn, ClassOrder, Key, OrderBy, StationOrder, TurnOrder};
pub use size::Size;
pub use tie::{Head, TieOrder, first_of};
