// The label of a block: its note, or its station's name.
ghost use Rattle.std.specs.Prelude.{◌≡◌};
ghost use Rattle.wire.specs.Format.{label_of};
ghost use Rattle.wire.specs.Shown.{part_told};

use crate::fault::Fault;
use crate::reading::read;

// The bytes of a name on a name sheet.
pub const NAME: usize = 12;

// The label of a block, a part of the block or of the name sheet: refuses as reading does, then a
// sheet that has not twelve bytes for each station of the group.
pub fn label<'a>(block: &'a [u8], sheet: &'a [u8]) -> Result<&'a [u8], Fault>
    ensures { part_told result ≡ label_of block.now sheet.now }
{
    let reading = read(block)?;
    if sheet.len() != NAME * reading.n as usize {
        return Err(Fault::Setting);
    }
    if !reading.note.is_empty() {
        return Ok(reading.note);
    }
    let end = NAME * reading.message.station as usize;
    Ok(&sheet[end - NAME..end])
}
