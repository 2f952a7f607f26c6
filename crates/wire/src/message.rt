// A message: what one station says to the whole group.
ghost use Rattle.std.specs.Prelude.{◌≡◌, ◌≤◌};
ghost use Rattle.wire.specs.Messages.{counts_fit, is_group, well_formed, Shaped};

// The most stations that a group has.
pub const STATIONS: usize = 16;

// The highest number of a message, and so the highest count.
pub const NUMBERS: u16 = 4096;

// The highest class.
pub const CLASSES: u8 = 3;

// Whether a group may have n stations: 1 to 16.
pub fn is_group(n: u8) -> bool
    ensures { result ≡ is_group n }
{
    (1..=STATIONS).contains(&(n as usize))
}

// A message of a group. A station is one process of the group; the after-list is the message's
// vector timestamp: count j says that it follows messages 1 up to that count of station j.
#[derive(Clone, Copy, Default, PartialEq, Eq, Debug)]
pub struct Message {
    pub station: u8,
    pub number: u16,
    pub after: [u16; STATIONS],
    pub class: u8,
    pub order: [u8; 8],
}

impl Message {
    // Whether the message is well formed for a group of n stations.
    pub fn is_well_formed(&self, n: u8) -> bool
        ensures answer { result ≡ well_formed n self.now }
        ensures shape { Shaped self.now }
    {
        n as usize <= STATIONS
            && (1..=n).contains(&self.station)
            && (1..=NUMBERS).contains(&self.number)
            && self.class <= CLASSES
            && self.after[self.station as usize - 1] == self.number - 1
            && counts_fit(n, &self.after)
    }
}

// Whether every count is in its range, and is 0 for a station above n.
fn counts_fit(n: u8, after: &[u16; STATIONS]) -> bool
    requires { n ≤ 16 }
    ensures { result ≡ counts_fit n after.now }
{
    after.iter().all(|count| *count <= NUMBERS)
        && after[n as usize..].iter().all(|count| *count == 0)
}
