// Taking messages in.
ghost use Rattle.std.specs.Prelude.{◌≡◌, length, if◌then◌else◌, slice_set};
ghost use Rattle.model.specs.Calls.{carried_message, offer_decided, offer_of, take_decided};
ghost use Rattle.model.specs.Following.{alike};
ghost use Rattle.model.specs.Meanings.{OfferAnswers};
ghost use Rattle.model.specs.Sound.{MayAccept};
ghost use Rattle.model.specs.States.{accepting, is_full};
ghost use Rattle.station.specs.Memory.{holding};
ghost use Rattle.station.specs.Standing.{Does, SameMemory, UnchangedIfRefused, state_of_station, table_after};
ghost use Rattle.wire.specs.declared.fault.Fault.TheVariants.{Clash, Repeat};

use crate::station::Station;
use model::messages::are_alike;
use wire::{Fault, Message, read};

impl Station<'_> {
    // Takes a block in. Refuses if the station is shut, then as reading the block does, then a block of
    // another n, then as taking its message in does.
    pub fn offer(&mut self, block: &[u8]) -> Result<(), Fault>
        ensures outcome { Does self.old self.new (λ state. offer_of state block.now) result }
        ensures answers { OfferAnswers (state_of_station self.old) block.now result }
        ensures table { self.new.table.places.now ≡ table_after (offer_decided (state_of_station self.old) block.now) (length (state_of_station self.old).accepted) self.old.table.places.now }
        ensures roll { self.new.roll.places.now ≡ self.old.roll.places.now }
        ensures refused { UnchangedIfRefused result self.old self.new }
        ensures lent { SameMemory self.old self.new }
    {
        let message = self.admitted(block)?;
        self.accept(&message);
        Ok(())
    }

    // The message that offer would take in.
    fn admitted(&self, block: &[u8]) -> Result<Message, Fault>
        ensures { result ≡ offer_decided (state_of_station self.now) block.now }
    {
        let message = self.carried(block)?;
        self.check_message(&message)
    }

    // The message that a block carries to this station: refuses if the station is shut, then as reading
    // does, then a block of another n.
    fn carried(&self, block: &[u8]) -> Result<Message, Fault>
        ensures { result ≡ carried_message (state_of_station self.now) block.now }
    {
        self.open()?;
        let reading = read(block)?;
        if reading.n != self.n {
            return Err(Fault::Layout);
        }
        Ok(reading.message)
    }

    // Whether a message of the group may be taken in: refuses one that is accepted already, alike or
    // unlike, then one that is early, one that is crossed, and one too many.
    fn check_message(&self, message: &Message) -> Result<Message, Fault>
        ensures { result ≡ take_decided (state_of_station self.now) message.now }
    {
        if let Some(other) = self.find(message.station, message.number) {
            return Err(again(message, &other));
        }
        if self.is_early(message) {
            return Err(Fault::Early);
        }
        if self.is_crossed(message) {
            return Err(Fault::Crossed);
        }
        if self.is_full() {
            return Err(Fault::Full);
        }
        Ok(*message)
    }

    // Whether as many messages are accepted as the table has places.
    pub(super) fn is_full(&self) -> bool
        ensures { result ≡ is_full (state_of_station self.now) }
    {
        self.table.is_full()
    }

    // Puts a message that may be taken in at the next place of the table.
    pub(super) fn accept(&mut self, message: &Message)
        requires { MayAccept (state_of_station self.old) message.now }
        ensures next { state_of_station self.new ≡ accepting (state_of_station self.old) message.now }
        ensures table { self.new.table.places.now ≡ slice_set self.old.table.places.now (length (state_of_station self.old).accepted) (holding message.now) }
        ensures roll { self.new.roll.places.now ≡ self.old.roll.places.now }
        ensures lent { SameMemory self.old self.new }
    {
        self.table.push(*message);
        self.accepted[message.station as usize - 1] += 1;
    }
}

// The refusal of a message under the number of one that is accepted.
fn again(message: &Message, other: &Message) -> Fault
    ensures { result ≡ (if alike message.now other.now then Repeat else Clash) }
{
    if are_alike(message, other) {
        Fault::Repeat
    } else {
        Fault::Clash
    }
}
