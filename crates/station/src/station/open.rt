// A station that is open: one that was made against no refusal.
ghost use Rattle.std.specs.Prelude.{◌≡◌, false};
ghost use Rattle.model.specs.States.{is_shut};
ghost use Rattle.station.specs.Standing.{state_of_station};

use crate::station::Station;

// An open station, as the parts of a call see it that need one.
#[derive(Clone, Copy)]
pub(super) struct Open<'s, 'a> {
    pub(super) station: &'s Station<'a>,
    ghost live: { is_shut (state_of_station station.now) ≡ false },
}
