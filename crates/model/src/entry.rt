// An entry of the roll.
use board::sets::STATIONS;
use wire::Message;

// One entry of the roll, the totally ordered log: a message, and the wave (the batch) it was released in.
// Waves count from 1.
#[derive(Clone, Copy)]
pub struct Entry {
    pub wave: u32,
    pub message: Message,
}

// What stands where no message is yet: the default message, as a constant, of which `Default` makes none.
pub const NOTHING: Message = Message {
    station: 0,
    number: 0,
    after: [0; STATIONS],
    class: 0,
    order: [0; 8],
};
