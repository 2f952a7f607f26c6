// What travels between stations: faults, messages, and the 512-byte block that carries one message.
#![tactic(auto)]

mod bytes;
pub mod check;
pub mod fault;
pub mod filling;
pub mod labelling;
pub mod message;
pub mod places;
pub mod reading;

pub use fault::Fault;
pub use filling::fill;
pub use labelling::label;
pub use message::{Message, is_group};
pub use places::BLOCK;
pub use reading::{Reading, read, verify};
