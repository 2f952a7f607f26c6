// What a station is: the state that it stands for, and what each of its six calls answers and leaves.
#![tactic(auto)]

pub mod entry;
pub mod messages;
pub mod ranking;
pub mod voting;
pub mod wave;
pub mod waves;

pub use entry::Entry;
pub use ranking::wave_of;
pub use wave::Wave;
