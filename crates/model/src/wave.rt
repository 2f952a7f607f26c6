// A wave.
use board::sets::STATIONS;
use wire::Message;

// The most messages of a wave: one of each station.
pub const MOST: usize = STATIONS;

// The messages of a wave (a batch) in the order of release, in the first places of an array, and the
// stations whose heads they are. It is plain data that is copied; a vector of fixed capacity is not.
#[derive(Clone, Copy)]
pub struct Wave {
    pub sources: u16,
    pub messages: [Message; MOST],
    pub count: usize,
}
