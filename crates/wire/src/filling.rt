// Filling a block: the inverse of reading it.
ghost use Rattle.std.specs.Prelude.{◌≡◌, ◌^◌, ◌<◌, ◌≤◌, true, ◌++◌, length, take, drop, Ok};
ghost use Rattle.wire.specs.Format.{block_of, check_sum, checked_part, filled, filling, fitting, reading};
ghost use Rattle.wire.specs.Laws.{ReadsBack};
ghost use Rattle.wire.specs.Words.{in_four};

use crate::check;
use crate::fault::Fault;
use crate::message::Message;
use crate::places::*;
use crate::reading::Reading;

// Fills a block with n, a message and a note: refuses the block's length, then any field that may
// not stand in a block, and leaves the block as it was.
pub fn fill(n: u8, message: &Message, note: &[u8], block: &mut [u8]) -> Result<(), Fault>
    ensures answer { result ≡ filling n message.now note.now block.old }
    ensures memory { block.new ≡ filled n message.now note.now block.old }
    ensures reads_back { ReadsBack n message.now note.now result block.new }
{
    let block = block.as_mut_array().ok_or(Fault::Length)?;
    let message = *message;
    let reading = Reading { n, message, note };
    if !reading.is_fitting() {
        return Err(Fault::Layout);
    }
    reading.write(block);
    Ok(())
}

impl Reading<'_> {
    // Writes the block of n, a message and a note that fit.
    fn write(&self, block: &mut [u8; BLOCK])
        requires { fitting self.now.n self.now.message self.now.note.now ≡ true }
        ensures memory { block.new ≡ block_of self.now.n self.now.message self.now.note.now }
        ensures reads { reading block.new ≡ Ok (record { n = self.now.n; message = self.now.message; note = self.now.note.now }) }
    {
        self.lay_out(block);
        seal(block);
    }

    // Writes the bytes that the check is taken over.
    fn lay_out(&self, block: &mut [u8; BLOCK])
        requires { length self.now.note.now ≤ 64 }
        ensures { block.new ≡ checked_part self.now.n self.now.message self.now.note.now ++ drop 508 block.old }
    {
        let message = &self.message;
        let counts = message.after.map(u16::to_le_bytes);
        let note_end = NOTE_AT + self.note.len();
        block[KIND_AT] = KIND;
        block[N_AT] = self.n;
        block[STATION_AT] = message.station;
        block[CLASS_AT] = message.class;
        block[NUMBER_AT..AFTER_AT].copy_from_slice(&message.number.to_le_bytes());
        block[AFTER_AT..ORDER_AT].copy_from_slice(counts.as_flattened());
        block[ORDER_AT..NOTE_LENGTH_AT].copy_from_slice(&message.order);
        block[NOTE_LENGTH_AT] = self.note.len() as u8;
        block[NOTE_AT..note_end].copy_from_slice(self.note);
        block[note_end..CHECK_AT].fill(0);
    }
}

// Writes the check into the last four bytes.
fn seal(block: &mut [u8; BLOCK])
    ensures memory { block.new ≡ take 508 block.old ++ in_four (check_sum block.old) }
    ensures small { check_sum block.old < 2 ^ 32 }
{
    let sum = check::sum(block).to_le_bytes();
    block[CHECK_AT..BLOCK].copy_from_slice(&sum);
}
