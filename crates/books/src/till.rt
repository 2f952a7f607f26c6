// The till book: a balance, paid into and out of.
ghost use Rattle.std.specs.Prelude.{◌≡◌, ℕ, List, ◌≢◌};
ghost use Rattle.books.specs.declared.till.TillWord.TheVariants.{Done};
ghost use Rattle.books.specs.Till.{leaving, till_code, till_step, till_top};

use crate::book::{Book, ORDER};

// The most that a till holds.
pub const LIMIT: u32 = 1_000_000_000;

// What an order asks of the till; the number is the order's code.
#[derive(Clone, Copy)]
enum TillCode {
    PayIn = 1,
    PayOut = 2,
    Read = 3,
}

// The word of a reply: done, or why nothing was. Each has a number of its own, done too, so it is one enum
// and no Result.
#[derive(Clone, Copy, PartialEq, Eq, Debug)]
pub enum TillWord {
    Done = 0,
    Unreadable = 1,
    OverLimit = 2,
    NotEnough = 3,
}

// A reply of the till book: its word, and the balance afterwards.
#[derive(Clone, Copy, PartialEq, Eq, Debug)]
pub struct TillReply {
    pub word: TillWord,
    pub balance: u32,
}

// A till, by its balance.
#[derive(Clone, Copy)]
pub struct TillBook {
    balance: u32,
}

impl TryFrom<u8> for TillCode {
    type Error = TillWord;

    ghost try_from_gives = { λ code result. result ≡ till_code code };

    fn try_from(code: u8) -> Result<TillCode, TillWord> {
        match code {
            1 => Ok(TillCode::PayIn),
            2 => Ok(TillCode::PayOut),
            3 => Ok(TillCode::Read),
            _ => Err(TillWord::Unreadable),
        }
    }
}

impl TillBook {
    // A till with nothing in it.
    pub fn new() -> TillBook
        ensures { result.balance ≡ 0 }
    {
        TillBook { balance: 0 }
    }

    pub fn balance(&self) -> u32
        ensures { result ≡ self.now.balance }
    {
        self.balance
    }

    // The balance that an order leaves when it is done, or the word of why it is not. The kinds of order are
    // closed, so they are the cases of one match.
    fn left_by(&self, order: &[u8; ORDER]) -> Result<u32, TillWord>
        ensures { leaving self.now.balance result ≡ till_step self.now.balance order.now }
    {
        let [code, 0, 0, 0, a, b, c, d] = *order else {
            return Err(TillWord::Unreadable);
        };
        let amount = u32::from_le_bytes([a, b, c, d]);
        match (TillCode::try_from(code)?, amount) {
            (TillCode::PayIn, 1..) => self
                .balance
                .checked_add(amount)
                .filter(|sum| *sum <= LIMIT)
                .ok_or(TillWord::OverLimit),
            (TillCode::PayOut, 1..) => self.balance.checked_sub(amount).ok_or(TillWord::NotEnough),
            (TillCode::Read, 0) => Ok(self.balance),
            _ => Err(TillWord::Unreadable),
        }
    }
}

impl Book for TillBook {
    type Reply = TillReply;

    const TOP: u8 = TillCode::Read as u8;

    ghost TOP = { till_top };

    ghost held = { ℕ };

    ghost holds = { λ till. till.balance };

    ghost step = { till_step };

    // Carries one order out; only a reply that it is done alters the till.
    fn post(&mut self, order: &[u8; ORDER]) -> TillReply
        ensures reply { result ≡ (till_step self.old.balance order.now).0 }
        ensures next { self.new.balance ≡ (till_step self.old.balance order.now).1 }
        ensures only_done_alters { (result.word ≢ Done) → self.new ≡ self.old }
    {
        let (word, balance) = match self.left_by(order) {
            Ok(balance) => (TillWord::Done, balance),
            Err(word) => (word, self.balance),
        };
        *self = TillBook { balance };
        TillReply { word, balance }
    }
}
