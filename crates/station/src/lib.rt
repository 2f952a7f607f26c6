// A station: it takes messages in, puts them into one order, and carries them out on a book.
#![tactic(auto)]

mod lent;
pub mod places;
pub mod station;

pub use places::{Place, RollPlace, TablePlace};
pub use station::Station;
