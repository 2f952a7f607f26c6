// Settles when the chosen station is present; the candidates that it votes for are the sources.
ghost use Rattle.std.specs.Prelude.{◌≡◌};
ghost use Rattle.board.specs.Sets.{set_of};
ghost use Rattle.rules.specs.Chosen.{may_lead};
ghost use Rattle.rules.specs.LeadStations.{chosen_by, lead_station};
ghost use Rattle.rules.specs.Making.{lead_station_of};
ghost use Rattle.rules.specs.Piles.{LeadStationsAreLawful};
ghost use Rattle.rules.specs.LeadLaws.{lead_station_lawful};
ghost use Rattle.rules.specs.LeadMade.{leads_first, leads_last};

use crate::lead_station::LeadStation;
use board::sets::{holds, set_of};
use board::{Board, Rule, is_group};
use std::array;
use wire::Fault;

impl LeadStation {
    // The rule for n with a station that leads: refuses an n outside 1 to 16, and a station outside 1 to n.
    pub fn new(n: u8, station: u8) -> Result<LeadStation, Fault>
        ensures made { result ≡ lead_station_of n station }
        ensures lawful { LeadStationsAreLawful }
    {
        if !may_lead(n, station) {
            return Err(Fault::Setting);
        }
        Ok(LeadStation { n, station })
    }
}

impl Rule for LeadStation {
    ghost means = { λ rule. lead_station rule.n rule.station };

    ghost lawful = { λ rule. lead_station_lawful rule.n rule.station (leads_first rule) (leads_last rule) };

    fn stations(&self) -> u8 {
        self.n
    }

    fn settle(&self, board: &Board) -> Option<u16> {
        let place = usize::from(self.station - 1);
        (board.n == self.n && board.is_present(place)).then(|| chosen_by(board, place))
    }
}

// The candidates that the station at a place votes for.
fn chosen_by(board: &Board, voter: usize) -> u16
    ensures { result ≡ set_of (chosen_by board.now voter) }
{
    set_of(&array::from_fn(|place| {
        board.has_candidate(place) && holds(board.voters_of(place), voter)
    }))
}

// Whether a group can have n stations, and the station is one of them.
fn may_lead(n: u8, station: u8) -> bool
    ensures { result ≡ may_lead n station }
{
    is_group(n) && (1..=n).contains(&station)
}
