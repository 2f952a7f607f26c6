// The one list of refusals: every call of every layer answers one of these, and passes it upward by `?`.
ghost use Rattle.std.specs.Prelude.{◌≡◌, Some};
ghost use Rattle.wire.specs.Faults.{numbered, worded};

use std::error::Error;
use std::fmt;

// Why a call refused; the number is part of the interface.
#[derive(Clone, Copy, PartialEq, Eq, Debug)]
pub enum Fault {
    Length = 1,
    Check = 2,
    Layout = 3,
    Repeat = 4,
    Clash = 5,
    Early = 6,
    Crossed = 7,
    Full = 8,
    NothingReady = 9,
    NothingToPost = 10,
    NoSuchPlace = 11,
    Setting = 12,
    NoBoard = 13,
}

impl Fault {
    // The number under which the refusal is told.
    pub fn number(self) -> u8
        ensures { result ≡ numbered self }
    {
        self as u8
    }

    // The word for people.
    pub fn word(self) -> &'static str
        ensures { result.now ≡ worded self }
    {
        match self {
            Fault::Length => "length",
            Fault::Check => "check",
            Fault::Layout => "layout",
            Fault::Repeat => "repeat",
            Fault::Clash => "clash",
            Fault::Early => "early",
            Fault::Crossed => "crossed",
            Fault::Full => "full",
            Fault::NothingReady => "nothing ready",
            Fault::NothingToPost => "nothing to post",
            Fault::NoSuchPlace => "no such place",
            Fault::Setting => "setting",
            Fault::NoBoard => "no board",
        }
    }
}

impl From<Fault> for u8 {
    ghost from_gives = { λ fault number. number ≡ numbered fault };

    fn from(fault: Fault) -> u8 {
        fault.number()
    }
}

// A refusal is shown by its word.
impl fmt::Display for Fault {
    ghost output = { λ fault. Some (worded fault) };

    fn fmt<W: fmt::Write>(&self, f: &mut fmt::Formatter<W>) -> fmt::Result {
        f.write_str(self.word())
    }
}

impl Error for Fault {}
