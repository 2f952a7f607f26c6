// The places of the memory that a station is lent for the day.
use model::Entry;
use model::entry::NOTHING;
use wire::Message;

// The most places of a message table and of a roll.
pub const PLACES: usize = 4096;

// One place of lent memory.
#[derive(Clone, Copy)]
pub struct Place<T> {
    pub(crate) content: T,
}

// One place of the message table.
pub type TablePlace = Place<Message>;

// One place of the roll.
pub type RollPlace = Place<Entry>;

// Each kind of place has an empty one of its own: it is a constant, and `Default` makes none.
impl Place<Message> {
    // A place to lend. What a lent place holds before the day does not matter.
    pub const EMPTY: TablePlace = Place { content: NOTHING };
}

impl Place<Entry> {
    // A place to lend. What a lent place holds before the day does not matter.
    pub const EMPTY: RollPlace = Place {
        content: Entry {
            wave: 0,
            message: NOTHING,
        },
    };
}
