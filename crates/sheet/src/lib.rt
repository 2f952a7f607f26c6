// What daysheet says of the blocks it is given: the lines it prints, byte by byte.
#![tactic(auto)]

ghost use Rattle.std.specs.Prelude.{◌≡◌, IfOk, Some, string_bytes};
ghost use Rattle.sheet.specs.Lines.{line_bytes, line_for, taking};

use std::alloc::{AllocError, Global};
use std::fmt;
use wire::Fault;

// One line of output: a message that was released, or a block that was refused.
#[derive(Clone, Copy, PartialEq, Eq, Debug)]
pub enum Line {
    Released { wave: u32, station: u8, number: u16 },
    Refused(Fault),
}

// A line is shown by its bytes, its line feed included.
impl fmt::Display for Line {
    ghost output = { λ line. Some (line_bytes line) };

    fn fmt<W: fmt::Write>(&self, f: &mut fmt::Formatter<W>) -> fmt::Result {
        match *self {
            Line::Released {
                wave,
                station,
                number,
            } => writeln!(f, "{wave} {station} {number}"),
            Line::Refused(fault) => writeln!(f, "refused {}", fault.number()),
        }
    }
}

impl Line {
    // The line's bytes, its line feed included, where there is memory for them.
    pub fn text(self, heap: Global) -> Result<String, AllocError>
        ensures { IfOk result (λ text. string_bytes text ≡ line_bytes self) }
    {
        self.to_string(heap)
    }
}

// Takes in one block: a refusal found while it is read comes out under its own number.
pub fn take_block(block: &[u8]) -> Result<(), Fault>
    ensures { result ≡ taking block.now }
{
    wire::read(block)?;
    Ok(())
}

// The line that a block brings: none for a block that reads well.
pub fn line_for(block: &[u8]) -> Option<Line>
    ensures { result ≡ line_for block.now }
{
    take_block(block).err().map(Line::Refused)
}
