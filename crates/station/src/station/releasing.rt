// Putting a wave on the roll.
ghost use Rattle.std.specs.Prelude.{◌≡◌, ◌+◌, ◌≤◌, map, length};
ghost use Rattle.model.specs.Arrays.{Sized};
ghost use Rattle.model.specs.Calls.{as_entries, release_decided, release_of};
ghost use Rattle.model.specs.Meanings.{ReleaseAnswers};
ghost use Rattle.model.specs.Sound.{MayRelease};
ghost use Rattle.model.specs.States.{releasing};
ghost use Rattle.station.specs.Memory.{holding, overwritten};
ghost use Rattle.station.specs.Standing.{Does, SameMemory, UnchangedIfRefused, entries_of, roll_after, state_of_station};

use crate::lent::Lent;
use crate::station::Station;
use board::Rule;
use model::voting::with_one_more;
use model::{Entry, Wave};
use ties::TieOrder;
use wire::{Fault, Message};

impl Station<'_> {
    // Puts the next wave on the roll and answers how many messages it has. Refuses if the station is shut,
    // then a rule and then a tie order for another n, then if the rule is open on the station's board.
    pub fn release<R: Rule, T: TieOrder>(&mut self, rule: &R, order: &T) -> Result<usize, Fault>
        ensures outcome { Does self.old self.new (λ state. release_of state (R.Rule.means rule.now) (T.TieOrder.means order.now)) result }
        ensures answers { ReleaseAnswers (state_of_station self.old) (R.Rule.means rule.now) (T.TieOrder.means order.now) result }
        ensures table { self.new.table.places.now ≡ self.old.table.places.now }
        ensures roll { self.new.roll.places.now ≡ roll_after (release_decided (state_of_station self.old) (R.Rule.means rule.now) (T.TieOrder.means order.now)) (length (state_of_station self.old).roll) self.old.roll.places.now }
        ensures refused { UnchangedIfRefused result self.old self.new }
        ensures lent { SameMemory self.old self.new }
    {
        let wave = self.decide(rule, order)?;
        self.append(&wave);
        Ok(wave.count)
    }

    // Puts a decided wave on the roll.
    fn append(&mut self, wave: &Wave)
        requires sized { Sized wave.now }
        requires may { MayRelease (state_of_station self.old) wave.now.sources (entries_of self.old wave.now) }
        ensures next { state_of_station self.new ≡ releasing (state_of_station self.old) (entries_of self.old wave.now) }
        ensures table { self.new.table.places.now ≡ self.old.table.places.now }
        ensures roll { self.new.roll.places.now ≡ overwritten self.old.roll.places.now (length (state_of_station self.old).roll) (map holding (entries_of self.old wave.now)) }
        ensures lent { SameMemory self.old self.new }
    {
        let number = self.waves + 1;
        put_entries(&mut self.roll, number, &wave.messages[..wave.count]);
        self.waves = number;
        self.released = with_one_more(&self.released, wave.sources);
    }
}

// Puts the entries of a wave on a roll.
fn put_entries(roll: &mut Lent<'_, Entry>, wave: u32, messages: &[Message])
    requires { roll.old.used + length messages.now ≤ length roll.old.places.now }
    ensures places { roll.new.places.now ≡ overwritten roll.old.places.now roll.old.used (map holding (as_entries wave messages.now)) }
    ensures used { roll.new.used ≡ roll.old.used + length messages.now }
    ensures lent { roll.new.places.ghost_name ≡ roll.old.places.ghost_name }
{
    for message in messages {
        roll.push(Entry {
            wave,
            message: *message,
        });
    }
}
