// Books: what a station carries its messages out on.
#![tactic(auto)]

pub mod book;
pub mod cabin;
pub mod till;

pub use book::Book;
pub use cabin::{CabinBook, CabinReply, Slot};
pub use till::{TillBook, TillReply, TillWord};
