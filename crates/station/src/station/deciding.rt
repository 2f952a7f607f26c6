// Deciding the next wave, which alters nothing.
ghost use Rattle.std.specs.Prelude.{◌≡◌, IfOk, Ok};
ghost use Rattle.model.specs.Arrays.{Sized};
ghost use Rattle.model.specs.Calls.{next_wave, release_decided};
ghost use Rattle.model.specs.Heads.{board_at};
ghost use Rattle.model.specs.Sound.{MayRelease};
ghost use Rattle.model.specs.States.{known, released};
ghost use Rattle.station.specs.Standing.{AreHeads, entries_of, state_of_station, wave_told};

use crate::station::Station;
use crate::station::open::Open;
use board::sets::STATIONS;
use board::{Board, Rule};
use model::voting::{present, voter_sets};
use model::{Wave, wave_of};
use ties::TieOrder;
use wire::{Fault, Message};

impl Station<'_> {
    // The wave to come, by value: refuses if the station is shut, then a rule and then a tie order for
    // another n, then if the rule is open on the station's board.
    pub(super) fn decide<R: Rule, T: TieOrder>(&self, rule: &R, order: &T) -> Result<Wave, Fault>
        ensures wave { wave_told (next_wave (state_of_station self.now)) result ≡ release_decided (state_of_station self.now) (R.Rule.means rule.now) (T.TieOrder.means order.now) }
        ensures sized { IfOk result Sized }
        ensures may { IfOk result (λ wave. MayRelease (state_of_station self.now) wave.sources (entries_of self.now wave)) }
    {
        let open = self.open()?;
        if rule.stations() != self.n || order.stations() != self.n {
            return Err(Fault::Setting);
        }
        let heads = open.heads();
        let sources = rule.settle(&open.board(&heads)).ok_or(Fault::NothingReady)?;
        Ok(wave_of(order, self.waves + 1, &heads, sources))
    }
}

impl Open<'_, '_> {
    // The head of each station: its first accepted message that is not released. Each is put in where it
    // stands, so that it is copied once.
    fn heads(&self) -> [Option<Message>; STATIONS]
        ensures { AreHeads self.now.station.now result }
    {
        let station = self.station;
        let mut heads = [None; STATIONS];
        for (place, head) in heads.iter_mut().enumerate() {
            *head = station.find(place as u8 + 1, station.released[place] + 1);
        }
        heads
    }

    // The board that the heads give.
    fn board(&self, heads: &[Option<Message>; STATIONS]) -> Board
        requires { AreHeads self.now.station.now heads.now }
        ensures { board_at self.now.station.now.n (known (state_of_station self.now.station.now)) (released (state_of_station self.now.station.now)) ≡ Ok result }
    {
        Board {
            n: self.station.n,
            present: present(heads),
            voters: voter_sets(heads, &self.station.released),
        }
    }
}
