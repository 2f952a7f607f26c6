// Questions on two messages. They compare a part of a message each, so that no derived comparison answers them.
ghost use Rattle.std.specs.Prelude.{◌≡◌};
ghost use Rattle.model.specs.Accepted.{is_named};
ghost use Rattle.model.specs.Following.{alike, counts_exceed, exceeds, follows};

use board::sets::STATIONS;
use wire::Message;

// Whether the message is the one of a station with a number.
pub fn is_of(message: &Message, station: u8, number: u16) -> bool
    ensures { result ≡ is_named message.now station number }
{
    message.station == station && message.number == number
}

// Whether two messages are alike: in after-list, class and order bytes.
pub fn are_alike(message: &Message, other: &Message) -> bool
    ensures { result ≡ alike message.now other.now }
{
    message.after == other.after && message.class == other.class && message.order == other.order
}

// Whether some count is larger than the other one of its station.
pub fn exceeds(counts: &[u16; STATIONS], others: &[u16; STATIONS]) -> bool
    ensures { result ≡ counts_exceed counts.now others.now }
{
    counts
        .iter()
        .zip(others)
        .any(|(count, other)| count > other)
}

// Whether the first message has a larger count than the second for some station.
pub fn is_larger(message: &Message, other: &Message) -> bool
    ensures { result ≡ exceeds message.now other.now }
{
    exceeds(&message.after, &other.after)
}

// Whether the first message follows the second.
pub fn does_follow(message: &Message, other: &Message) -> bool
    ensures { result ≡ follows message.now other.now }
{
    let count = other
        .station
        .checked_sub(1)
        .and_then(|place| message.after.get(usize::from(place)));
    other.number >= 1 && count.is_some_and(|count| other.number <= *count)
}
