// Looking accepted messages up.
ghost use Rattle.std.specs.Prelude.{◌≡◌, ◌<◌, ◌&&◌, nat_le, nat_lt};
ghost use Rattle.model.specs.Accepted.{crossed, early, is_crossed_by, tally};
ghost use Rattle.model.specs.States.{known};
ghost use Rattle.station.specs.Standing.{state_of_station};

use crate::station::Station;
use board::sets::STATIONS;
use model::messages::{exceeds, is_larger, is_of};
use wire::Message;

impl Station<'_> {
    // The accepted message of a station with a number. A number above what is accepted is not looked for;
    // any other is looked for from the newest place back, since messages follow recent ones.
    pub(super) fn find(&self, station: u8, number: u16) -> Option<Message>
        ensures { result ≡ known (state_of_station self.now) station number }
    {
        if self.is_beyond(station, number) {
            return None;
        }
        self.table
            .held()
            .iter()
            .rev()
            .find(|place| is_of(&place.content, station, number))
            .map(|place| place.content)
    }

    // Whether a number is above what is accepted from a station of 1 to 16.
    fn is_beyond(&self, station: u8, number: u16) -> bool
        ensures { result ≡ (nat_le 1 station && (nat_le station 16 && nat_lt (tally (state_of_station self.now).accepted station) number)) }
    {
        (1..=STATIONS).contains(&(station as usize)) && self.accepted[station as usize - 1] < number
    }

    // Whether something that the message follows is not accepted.
    pub(super) fn is_early(&self, message: &Message) -> bool
        ensures { result ≡ early (known (state_of_station self.now)) message.now }
    {
        exceeds(&message.after, &self.accepted)
    }

    // Whether, for some station, the last message that the message follows has a larger count than it.
    pub(super) fn is_crossed(&self, message: &Message) -> bool
        ensures { result ≡ crossed (known (state_of_station self.now)) message.now }
    {
        (0..STATIONS).any(|place| self.is_crossed_at(message, place))
    }

    // The same for the station at a place. A place is a number below 16: a range gives numbers, so a type of
    // places would be made anew at each call.
    fn is_crossed_at(&self, message: &Message, place: usize) -> bool
        requires { place < 16 }
        ensures { result ≡ is_crossed_by (known (state_of_station self.now)) message.now place }
    {
        let count = message.after[place];
        count != 0
            && self
                .find(place as u8 + 1, count)
                .is_some_and(|other| is_larger(&other, message))
    }
}
