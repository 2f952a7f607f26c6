// The station.
ghost use Rattle.std.specs.Prelude.{◌≡◌, ◌≤◌};
ghost use Rattle.model.specs.Accepted.{tallies};
ghost use Rattle.model.specs.Sound.{Sound};
ghost use Rattle.model.specs.States.{last_wave, on_roll};
ghost use Rattle.station.specs.Memory.{contents_in, state_of};

use crate::lent::Lent;
use board::sets::STATIONS;
use model::Entry;
use wire::Message;

mod deciding;
mod finding;
mod open;
mod opening;
mod posting;
mod releasing;
mod showing;
mod taking;
mod writing;

// What a call keeps stands in clauses of its own at each call: a name for them together would hide which
// memory the call alters.

// One process (replica) of a group that puts its messages into one order. Table and roll are lent to it
// for the day; it allocates nothing.
#[derive(Drop)]
pub struct Station<'a> {
    // how many stations the group has, and which of them this is
    n: u8,
    own: u8,
    // the message table, which holds the accepted messages
    table: Lent<'a, Message>,
    // the roll, and how many of its entries are posted
    roll: Lent<'a, Entry>,
    posted: usize,
    // the number of the last wave
    waves: u32,
    // how many messages of each station are accepted, and how many are on the roll: two lists, since the
    // first is copied whole into a message, and each is compared whole
    accepted: [u16; STATIONS],
    released: [u16; STATIONS],
    ghost posts_fit: { posted ≤ roll.used },
    ghost waves_told: { waves ≡ last_wave (contents_in roll.used roll.places.now) },
    ghost accepted_told: { accepted ≡ tallies (contents_in table.used table.places.now) },
    ghost released_told: { released ≡ tallies (on_roll (contents_in roll.used roll.places.now)) },
    ghost sound: { ∥ Sound (state_of n own table.places.now table.used roll.places.now roll.used posted) ∥₁ },
}
