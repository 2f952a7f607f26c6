// Roll call: settles when all are present, and every candidate is a source.
ghost use Rattle.std.specs.Prelude.{◌≡◌};
ghost use Rattle.board.specs.Boards.{candidate};
ghost use Rattle.board.specs.Sets.{set_of};
ghost use Rattle.rules.specs.Making.{roll_call_of};
ghost use Rattle.rules.specs.Piles.{RollCallsAreLawful};
ghost use Rattle.rules.specs.RollCalls.{roll_call};
ghost use Rattle.rules.specs.RollCallLaws.{roll_call_lawful};

use board::sets::set_of;
use board::{Board, Rule, is_group};
use std::array;
use wire::Fault;

// The rule of a group of n.
#[derive(Clone, Copy)]
pub struct RollCall {
    n: u8,
}

impl RollCall {
    // The rule for n: refuses an n outside 1 to 16.
    pub fn new(n: u8) -> Result<RollCall, Fault>
        ensures made { result ≡ roll_call_of n }
        ensures lawful { RollCallsAreLawful }
    {
        if !is_group(n) {
            return Err(Fault::Setting);
        }
        Ok(RollCall { n })
    }
}

impl Rule for RollCall {
    ghost means = { λ rule. roll_call rule.n };

    ghost lawful = { λ rule. roll_call_lawful rule.n };

    fn stations(&self) -> u8 {
        self.n
    }

    fn settle(&self, board: &Board) -> Option<u16> {
        (board.n == self.n && board.all_present()).then(|| candidates(board))
    }
}

// The stations that have a candidate.
fn candidates(board: &Board) -> u16
    ensures { result ≡ set_of (candidate board.now) }
{
    set_of(&array::from_fn(|place| board.has_candidate(place)))
}
