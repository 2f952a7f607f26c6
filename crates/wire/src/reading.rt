// Reading a block: its length, then its check, then its layout.
ghost use Rattle.std.specs.Prelude.{◌≡◌, MatchResult, IfOk, Ok, Err};
ghost use Rattle.wire.specs.Format.{fitting, message_in, noted, read_layout, reading, verified};
ghost use Rattle.wire.specs.Laws.{AlteredIsRefused, ExchangedIsRefused, FillsAgain};
ghost use Rattle.wire.specs.Messages.{Shaped};
ghost use Rattle.wire.specs.Shown.{told};
ghost use Rattle.wire.specs.Words.{all_within};

use crate::bytes::{array_at, number_at};
use crate::check;
use crate::fault::Fault;
use crate::message::Message;
use crate::places::*;
use std::array;

// What a block that reads well says. The note is a part of the block.
#[derive(Clone, Copy, PartialEq, Eq, Debug)]
pub struct Reading<'a> {
    pub n: u8,
    pub message: Message,
    pub note: &'a [u8],
}

// Reads a block: refuses its length, then its check, then its layout.
pub fn read(block: &[u8]) -> Result<Reading<'_>, Fault>
    ensures answer { told result ≡ reading block.now }
    ensures fills_again { FillsAgain block.now }
    ensures altered { AlteredIsRefused block.now }
    ensures exchanged { ExchangedIsRefused block.now }
{
    laid_out(sealed(block)?)
}

// Whether a block has its length and its check: refuses the length, then the check.
pub fn verify(block: &[u8]) -> Result<(), Fault>
    ensures { result ≡ verified block.now }
{
    sealed(block)?;
    Ok(())
}

// The block, known by its type to have its length, if it has its check too.
fn sealed(block: &[u8]) -> Result<&[u8; BLOCK], Fault>
    ensures answer { MatchResult result (λ _. Ok tt ≡ verified block.now) (λ fault. Err fault ≡ verified block.now) }
    ensures same { IfOk result (λ whole. whole.now ≡ block.now) }
{
    let block = block.as_array().ok_or(Fault::Length)?;
    if u32::from_le_bytes(array_at(block, CHECK_AT)) != check::sum(block) {
        return Err(Fault::Check);
    }
    Ok(block)
}

// What a block of the right length says, or that its layout is refused.
fn laid_out(block: &[u8; BLOCK]) -> Result<Reading<'_>, Fault>
    ensures { told result ≡ read_layout block.now }
{
    let note_length = block[NOTE_LENGTH_AT] as usize;
    if block[KIND_AT] != KIND || note_length > NOTE {
        return Err(Fault::Layout);
    }
    let note_end = NOTE_AT + note_length;
    let reading = Reading {
        n: block[N_AT],
        message: message_in(block),
        note: &block[NOTE_AT..note_end],
    };
    if !reading.is_fitting() || !is_spare(&block[note_end..CHECK_AT]) {
        return Err(Fault::Layout);
    }
    Ok(reading)
}

impl Reading<'_> {
    // Whether it may stand in a block.
    pub(crate) fn is_fitting(&self) -> bool
        ensures answer { result ≡ fitting self.now.n self.now.message self.now.note.now }
        ensures shape { Shaped self.now.message }
    {
        self.message.is_well_formed(self.n) && is_note(self.note)
    }
}

// Whether n, a message and a note may stand in a block.
pub fn is_fitting(n: u8, message: &Message, note: &[u8]) -> bool
    ensures answer { result ≡ fitting n message.now note.now }
    ensures shape { Shaped message.now }
{
    let message = *message;
    Reading { n, message, note }.is_fitting()
}

// Whether bytes may stand as a note: at most 64 characters from 32 to 126.
pub fn is_note(note: &[u8]) -> bool
    ensures { result ≡ noted note.now }
{
    note.len() <= NOTE
        && note
            .iter()
            .all(|byte| (FIRST_CHARACTER..=LAST_CHARACTER).contains(byte))
}

// Whether bytes may stand between the note and the check: all are 0.
fn is_spare(bytes: &[u8]) -> bool
    ensures { result ≡ all_within 0 0 bytes.now }
{
    bytes.iter().all(|byte| *byte == 0)
}

// The message that stands in a block, whatever its fields are.
fn message_in(block: &[u8; BLOCK]) -> Message
    ensures { result ≡ message_in block.now }
{
    Message {
        station: block[STATION_AT],
        number: number_at(block, NUMBER_AT),
        after: array::from_fn(|j| number_at(block, AFTER_AT + 2 * j)),
        class: block[CLASS_AT],
        order: array_at(block, ORDER_AT),
    }
}
