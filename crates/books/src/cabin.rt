// The cabin book: the slots of fourteen days, and the cabins of a lift.
ghost use Rattle.std.specs.Prelude.{◌≡◌, ◌≤◌, ℕ, true, List, Some, Ok, Err, IfOk, IfErr, nat_le, slice_index};
ghost use Rattle.wire.specs.Words.{two_bytes};
ghost use Rattle.books.specs.declared.cabin.CabinBook.{CabinBook};
ghost use Rattle.books.specs.declared.cabin.CabinReply.TheVariants.{Done};
ghost use Rattle.books.specs.Books.{OnlyAlters};
ghost use Rattle.books.specs.Cabin.{at_start, cabin_code, cabin_readable, cabin_step, cabin_top, home_told, is_slot, most, named_well, on_its_slot, slot_told};

use crate::book::{Book, ORDER};
use std::fmt;

pub const DAYS: usize = 14;

pub const DEPARTURES: usize = 32;

pub const CABINS: usize = 24;

// The seats of each cabin: 8 in cabins 1 to 12, 16 in 13 to 20, 24 in 21 to 24.
pub const SEATS: [u8; CABINS] = [
    8, 8, 8, 8, 8, 8, 8, 8, 8, 8, 8, 8, 16, 16, 16, 16, 16, 16, 16, 16, 24, 24, 24, 24,
];

// What an order asks of the book; the number is the order's code.
#[derive(Clone, Copy)]
enum CabinCode {
    Book = 1,
    Cancel = 2,
    Assign = 3,
    Ride = 4,
}

// One departure of one day.
#[derive(Clone, Copy, PartialEq, Eq, Debug)]
pub enum Slot {
    Free,
    Booked { party: u16, seats: u8 },
    Assigned { party: u16, seats: u8, cabin: u8 },
    Ridden,
}

// A reply of the cabin book: done, or why nothing was. Each has a number of its own, done too, so it is
// one enum and no Result.
#[derive(Clone, Copy, PartialEq, Eq, Debug)]
pub enum CabinReply {
    Done = 0,
    Unreadable = 1,
    OtherState = 2,
    OtherParty = 3,
    OtherCabin = 4,
    TooSmall = 5,
}

// A cabin: its seats, and whether it is home.
#[derive(Clone, Copy)]
struct Cabin {
    seats: u8,
    home: bool,
}

// The cabins and the slots.
#[derive(Clone, Copy)]
pub struct CabinBook {
    cabins: [Cabin; CABINS],
    slots: [[Slot; DEPARTURES]; DAYS],
}

impl TryFrom<u8> for CabinCode {
    type Error = CabinReply;

    ghost try_from_gives = { λ code result. result ≡ cabin_code code };

    fn try_from(code: u8) -> Result<CabinCode, CabinReply> {
        match code {
            1 => Ok(CabinCode::Book),
            2 => Ok(CabinCode::Cancel),
            3 => Ok(CabinCode::Assign),
            4 => Ok(CabinCode::Ride),
            _ => Err(CabinReply::Unreadable),
        }
    }
}

// An order by its code: bytes whose code asks for something.
#[derive(Clone, Copy)]
struct CabinOrder {
    code: CabinCode,
    bytes: [u8; ORDER],
    ghost coded: { cabin_code (slice_index bytes 0) ≡ Ok code },
}

impl CabinOrder {
    // The order of these bytes: refuses a code that asks for nothing.
    fn new(bytes: [u8; ORDER]) -> Result<CabinOrder, CabinReply>
        ensures code { IfErr result (λ reply. Err reply ≡ cabin_code (slice_index bytes 0)) }
        ensures same { IfOk result (λ order. order.bytes ≡ bytes) }
    {
        let code = CabinCode::try_from(bytes[0])?;
        Ok(CabinOrder { code, bytes })
    }

    // The party, in two bytes, the lowest first.
    fn party(self) -> u16
        ensures { result ≡ two_bytes self.bytes 4 }
    {
        let [_, _, _, _, low, high, _, _] = self.bytes;
        u16::from_le_bytes([low, high])
    }
}

impl fmt::Display for Slot {
    ghost use Rattle.books.specs.CabinWords.{slot_words};

    ghost output = { λ slot. Some (slot_words slot) };

    fn fmt<W: fmt::Write>(&self, f: &mut fmt::Formatter<W>) -> fmt::Result {
        match self {
            Slot::Free => f.write_str("free"),
            Slot::Booked { party, seats } => write!(f, "booked for party {party}, {seats} seats"),
            Slot::Assigned {
                party,
                seats,
                cabin,
            } => { write!(f, "assigned to party {party}, {seats} seats, cabin {cabin}") }
            Slot::Ridden => f.write_str("ridden"),
        }
    }
}

impl fmt::Display for CabinReply {
    ghost use Rattle.books.specs.CabinWords.{reply_word};

    ghost output = { λ reply. Some (reply_word reply) };

    fn fmt<W: fmt::Write>(&self, f: &mut fmt::Formatter<W>) -> fmt::Result {
        f.write_str(match self {
            CabinReply::Done => "done",
            CabinReply::Unreadable => "unreadable",
            CabinReply::OtherState => "slot in another state",
            CabinReply::OtherParty => "other party",
            CabinReply::OtherCabin => "cabin not home, or another one",
            CabinReply::TooSmall => "cabin too small",
        })
    }
}

impl From<CabinReply> for u8 {
    ghost use Rattle.books.specs.CabinWords.{reply_number};

    ghost from_gives = { λ reply number. number ≡ reply_number reply };

    fn from(reply: CabinReply) -> u8 {
        reply as u8
    }
}

impl Book for CabinBook {
    type Reply = CabinReply;

    const TOP: u8 = CabinCode::Ride as u8;

    ghost TOP = { cabin_top };

    ghost held = { CabinBook };

    ghost holds = { λ book. book };

    ghost step = { cabin_step };

    // Carries one order out; only a reply that it is done alters the book.
    fn post(&mut self, order: &[u8; ORDER]) -> CabinReply
        ensures reply { result ≡ (cabin_step self.old order.now).0 }
        ensures next { self.new ≡ (cabin_step self.old order.now).1 }
        ensures only_done_alters { OnlyAlters (λ reply. reply ≡ Done) cabin_step }
    {
        match CabinOrder::new(*order) {
            Ok(order) if self.is_readable(order) => self.carry_out(order),
            _ => CabinReply::Unreadable,
        }
    }
}

impl CabinBook {
    // A book with all slots free and all cabins home.
    pub fn new() -> CabinBook
        ensures { result ≡ at_start }
    {
        // The seats are put in where the cabins stand, so that no second array is made.
        let mut cabins = [Cabin {
            seats: 0,
            home: true,
        }; CABINS];
        for (place, cabin) in cabins.iter_mut().enumerate() {
            cabin.seats = SEATS[place];
        }
        CabinBook {
            cabins,
            slots: [[Slot::Free; DEPARTURES]; DAYS],
        }
    }

    // What the slot of a day and a departure holds, where there is one.
    pub fn slot(&self, day: u8, departure: u8) -> Option<Slot>
        ensures { result ≡ slot_told self.now day departure }
    {
        let day = usize::from(day).checked_sub(1)?;
        let departure = usize::from(departure).checked_sub(1)?;
        self.slots.get(day)?.get(departure).copied()
    }

    // Whether a cabin is home, where there is such a cabin.
    pub fn is_home(&self, cabin: u8) -> Option<bool>
        ensures { result ≡ home_told self.now cabin }
    {
        let place = usize::from(cabin).checked_sub(1)?;
        self.cabins.get(place).map(|cabin| cabin.home)
    }

    // Whether an order can be read.
    fn is_readable(&self, order: CabinOrder) -> bool
        ensures { result ≡ cabin_readable self.now order.bytes }
    {
        let [_, day, departure, _, _, _, _, spare] = order.bytes;
        is_slot(day, departure) && spare == 0 && self.is_named_well(order)
    }

    // Whether the fields that the code names are in range, and the others 0. The kinds of order are closed,
    // so they are the cases of one match, here and below.
    fn is_named_well(&self, order: CabinOrder) -> bool
        ensures { result ≡ named_well self.now order.bytes }
    {
        let [_, _, _, cabin, _, _, seats, _] = order.bytes;
        let party = order.party();
        match order.code {
            CabinCode::Book => {
                cabin == 0 && party >= 1 && seats >= 1 && is_in_one(&self.cabins, seats)
            }
            CabinCode::Cancel => cabin == 0 && party >= 1 && seats == 0,
            CabinCode::Assign | CabinCode::Ride => {
                (1..=CABINS).contains(&usize::from(cabin)) && party == 0 && seats == 0
            }
        }
    }

    // Carries an order out that can be read: what becomes of a slot depends on its state and the code, which
    // are matched together, in place, a form that is used for its own sake.
    fn carry_out(&mut self, order: CabinOrder) -> CabinReply
        requires { cabin_readable self.old order.bytes ≡ true }
        ensures reply { result ≡ (on_its_slot self.old order.bytes).0 }
        ensures next { self.new ≡ (on_its_slot self.old order.bytes).1 }
    {
        let [_, day, departure, cabin, _, _, seats, _] = order.bytes;
        let slot = &mut self.slots[usize::from(day) - 1][usize::from(departure) - 1];
        match (*slot, order.code) {
            (Slot::Free, CabinCode::Book) => {
                let party = order.party();
                *slot = Slot::Booked { party, seats };
                CabinReply::Done
            }
            (Slot::Booked { party, .. }, CabinCode::Cancel) => {
                if party != order.party() {
                    return CabinReply::OtherParty;
                }
                *slot = Slot::Free;
                CabinReply::Done
            }
            (Slot::Booked { party, seats }, CabinCode::Assign) => {
                let given = &mut self.cabins[usize::from(cabin) - 1];
                if !given.home {
                    return CabinReply::OtherCabin;
                }
                if seats > given.seats {
                    return CabinReply::TooSmall;
                }
                given.home = false;
                *slot = Slot::Assigned {
                    party,
                    seats,
                    cabin,
                };
                CabinReply::Done
            }
            (Slot::Assigned { cabin: given, .. }, CabinCode::Ride) => {
                if given != cabin {
                    return CabinReply::OtherCabin;
                }
                self.cabins[usize::from(cabin) - 1].home = true;
                *slot = Slot::Ridden;
                CabinReply::Done
            }
            _ => CabinReply::OtherState,
        }
    }
}

// Whether there is a slot of this day and departure.
fn is_slot(day: u8, departure: u8) -> bool
    ensures { result ≡ is_slot day departure }
{
    (1..=DAYS).contains(&usize::from(day)) && (1..=DEPARTURES).contains(&usize::from(departure))
}

// Whether some cabin has as many seats, so that the most that any has is enough. They are asked one after
// another from the last, since the largest stand there.
fn is_in_one(cabins: &[Cabin], seats: u8) -> bool
    requires { 1 ≤ seats }
    ensures { result ≡ nat_le seats (most cabins.now) }
{
    cabins.iter().rev().any(|cabin| seats <= cabin.seats)
}
