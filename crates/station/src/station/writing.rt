// Writing the own station's messages.
ghost use Rattle.std.specs.Prelude.{◌≡◌, length};
ghost use Rattle.model.specs.Calls.{may_write, next_message, write_decided, write_of, written_block};
ghost use Rattle.model.specs.Meanings.{WriteAnswers};
ghost use Rattle.station.specs.Standing.{Does, SameMemory, UnchangedIfRefused, state_of_station, table_after};

use crate::station::Station;
use crate::station::open::Open;
use wire::message::CLASSES;
use wire::reading::is_note;
use wire::{BLOCK, Fault, Message, fill};

impl Station<'_> {
    // Makes the own station's next message, accepts it and fills the block with it. It follows all that is
    // accepted. Refuses if the station is shut, then the block's length, then the class and the note, then
    // one message too many.
    pub fn write(
        &mut self,
        class: u8,
        order: &[u8; 8],
        note: &[u8],
        block: &mut [u8],
    ) -> Result<(), Fault>
        ensures outcome { Does self.old self.new (λ state. write_of state class order.now note.now block.old) result }
        ensures answers { WriteAnswers (state_of_station self.old) class note.now block.old result }
        ensures block { block.new ≡ written_block (state_of_station self.old) class order.now note.now block.old }
        ensures table { self.new.table.places.now ≡ table_after (write_decided (state_of_station self.old) class order.now note.now block.old) (length (state_of_station self.old).accepted) self.old.table.places.now }
        ensures roll { self.new.roll.places.now ≡ self.old.roll.places.now }
        ensures refused { UnchangedIfRefused result self.old self.new }
        ensures lent { SameMemory self.old self.new }
    {
        let message = self.draft(class, order, note, block)?;
        fill(self.n, &message, note, block)?;
        self.accept(&message);
        Ok(())
    }

    // The message that write would make. Class, order bytes, note and block stay apart, as makers give them.
    fn draft(&self, class: u8, order: &[u8; 8], note: &[u8], block: &[u8]) -> Result<Message, Fault>
        ensures { result ≡ write_decided (state_of_station self.now) class order.now note.now block.now }
    {
        let open = self.open()?;
        if block.len() != BLOCK {
            return Err(Fault::Length);
        }
        if !is_writable(class, note) {
            return Err(Fault::Layout);
        }
        if self.is_full() {
            return Err(Fault::Full);
        }
        Ok(open.next_message(class, order))
    }
}

impl Open<'_, '_> {
    // The own station's next message: it follows all that is accepted.
    fn next_message(&self, class: u8, order: &[u8; 8]) -> Message
        ensures { result ≡ next_message (state_of_station self.now.station.now) class order.now }
    {
        let station = self.station;
        Message {
            station: station.own,
            number: station.accepted[station.own as usize - 1] + 1,
            after: station.accepted,
            class,
            order: *order,
        }
    }
}

// Whether a message may have the class, and its block the note.
fn is_writable(class: u8, note: &[u8]) -> bool
    ensures { result ≡ may_write class note.now }
{
    class <= CLASSES && is_note(note)
}
