// Sets of stations as masks: station j is bit j − 1, and its place is j − 1.
ghost use Rattle.std.specs.Prelude.{◌≡◌, false, slice_index_or, not, ◌&&◌, ◌||◌, nat_eq, nat_lt};
ghost use Rattle.board.specs.Sets.{has, number_of, set_of, within};

// The most stations that a group has.
pub use wire::message::STATIONS;

// Whether the station at a place is in the set.
pub fn holds(set: u16, place: usize) -> bool
    ensures { result ≡ has set place }
{
    place < STATIONS && (set >> place) & 1 == 1
}

// The set of the station at a place alone: empty where no station has that place.
pub fn alone(place: usize) -> u16
    ensures { result ≡ set_of (λ other. nat_eq other place) }
{
    if place < STATIONS { 1 << place } else { 0 }
}

// The set of stations 1 to n.
pub fn first(n: u8) -> u16
    ensures { result ≡ set_of (λ place. nat_lt place n) }
{
    if usize::from(n) < STATIONS {
        (1 << n) - 1
    } else {
        u16::MAX
    }
}

// The stations that are in one of two sets.
pub fn join(one: u16, other: u16) -> u16
    ensures { result ≡ set_of (λ place. has one place || has other place) }
{
    one | other
}

// The stations that are in the first set and not in the second.
pub fn minus(one: u16, other: u16) -> u16
    ensures { result ≡ set_of (λ place. has one place && not (has other place)) }
{
    one & !other
}

// How many stations are in the set.
pub fn size(set: u16) -> u32
    ensures { result ≡ number_of (has set) }
{
    set.count_ones()
}

// Whether every station of the first set is in the second.
pub fn is_within(set: u16, other: u16) -> bool
    ensures { result ≡ within set other }
{
    minus(set, other) == 0
}

// The stations whose places pass, by sixteen answers.
pub fn set_of(passes: &[bool; STATIONS]) -> u16
    ensures { result ≡ set_of (λ place. slice_index_or passes.now place false) }
{
    let mut set = 0;
    for (place, does_pass) in passes.iter().enumerate() {
        if *does_pass {
            set = join(alone(place), set);
        }
    }
    set
}
