// Showing the roll.
ghost use Rattle.std.specs.Prelude.{◌≡◌};
ghost use Rattle.model.specs.Calls.{show_of};
ghost use Rattle.model.specs.Meanings.{ShowAnswers};
ghost use Rattle.model.specs.States.{entry_at};
ghost use Rattle.station.specs.Standing.{Does, state_of_station};

use crate::station::Station;
use model::Entry;
use wire::Fault;

impl Station<'_> {
    // The entry at a place of the roll, from 1: refuses if the station is shut, then place 0 and places
    // beyond the roll.
    pub fn show(&self, place: usize) -> Result<Entry, Fault>
        ensures outcome { Does self.now self.now (λ state. show_of state place) result }
        ensures answers { ShowAnswers (state_of_station self.now) place result }
    {
        self.open()?;
        self.entry_at(place).ok_or(Fault::NoSuchPlace)
    }

    // The entry at a place of the roll, from 1.
    pub(super) fn entry_at(&self, place: usize) -> Option<Entry>
        ensures { result ≡ entry_at (state_of_station self.now).roll place }
    {
        let before = place.checked_sub(1)?;
        self.roll.held().get(before).map(|place| place.content)
    }
}
