// What a tie order is.
ghost use Rattle.std.specs.Prelude.{◌≡◌, if◌then◌else◌};
ghost use Rattle.ties.specs.Ties.{Lawful, TieMeaning, as_head};

use wire::Message;

// A head, the first unreleased message of a station, as a tie order sees it.
#[derive(Clone, Copy, PartialEq, Eq, Debug)]
pub struct Head {
    pub station: u8,
    pub class: u8,
}

// A message as a tie order sees it.
impl From<&Message> for Head {
    ghost from_gives = { λ message head. head ≡ as_head message.now };

    fn from(message: &Message) -> Head {
        Head {
            station: message.station,
            class: message.class,
        }
    }
}

// A deterministic order inside a batch: it says, for one group's size, which of two heads goes first
// in a wave. Its meaning is these answers; asking alters nothing.
pub trait TieOrder {
    ghost means: { Self → TieMeaning };

    // How many stations the group has that the order is made for.
    fn stations(&self) -> u8
        ensures { result ≡ (means self.now).n };

    // Whether the first head goes before the second in a wave.
    fn before(&self, wave: u32, first: Head, second: Head) -> bool
        ensures { result ≡ (means self.now).before wave first second };

    // of two heads exactly one goes first, and going first is passed on
    ghost lawful: { (order : Self) → Lawful (means order) };
}

// Which of two heads goes first in a wave: the second where the order puts it before the first.
pub fn first_of<T: TieOrder>(order: &T, wave: u32, a: Head, b: Head) -> Head
    ensures answer { result ≡ (if (T.means order.now).before wave b a then b else a) }
    ensures lawful { Lawful (T.means order.now) }
{
    if order.before(wave, b, a) { b } else { a }
}
