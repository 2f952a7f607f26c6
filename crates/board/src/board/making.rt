// Making a board from a caller's sets.
ghost use Rattle.std.specs.Prelude.{◌≡◌, not, ◌&&◌, ◌==◌};
ghost use Rattle.board.specs.Ballots.{fair, is_board, voting_set};
ghost use Rattle.board.specs.Boards.{board_of};
ghost use Rattle.board.specs.Sets.{every, has, implies, up_to, within};

use crate::board::Board;
use crate::sets::{STATIONS, holds, is_within, join};
use wire::{Fault, is_group};

impl Board {
    // The board of a caller's sets: refuses an n outside 1 to 16, then sets that are no board.
    pub fn new(n: u8, present: u16, voters: [u16; STATIONS]) -> Result<Board, Fault>
        ensures { result ≡ board_of n present voters }
    {
        if !is_group(n) {
            return Err(Fault::Setting);
        }
        if !is_board(n, present, &voters) {
            return Err(Fault::NoBoard);
        }
        Ok(Board { n, present, voters })
    }
}

// The stations that vote for some candidate.
pub fn voting(voters: &[u16; STATIONS]) -> u16
    ensures { result ≡ voting_set voters.now }
{
    voters.iter().copied().fold(0, join)
}

// Whether the sets are a board of n. They and n stay apart until they are found to be one: that is what a
// Board says.
#[tactic(auto, using(crate::proofs::Made::all_vote))]
fn is_board(n: u8, present: u16, voters: &[u16; STATIONS]) -> bool
    ensures { result ≡ is_board n present voters.now }
{
    is_up_to(n, present) && are_fair(n, present, voters) && is_within(present, voting(voters))
}

// Whether only stations 1 to n are in the set.
fn is_up_to(n: u8, set: u16) -> bool
    ensures { result ≡ up_to n set }
{
    usize::from(n) >= STATIONS || set >> n == 0
}

// Whether the voters at every place are stations 1 to n, present, and with the place's own station.
fn are_fair(n: u8, present: u16, voters: &[u16; STATIONS]) -> bool
    ensures { result ≡ every (fair n present voters.now) }
{
    (0..STATIONS).all(|place| is_fair(n, present, voters[place], place))
}

// The same at one place.
fn is_fair(n: u8, present: u16, set: u16, place: usize) -> bool
    ensures { result ≡ (up_to n set && (within set present && implies (not (set == 0)) (has set place))) }
{
    is_up_to(n, set) && is_within(set, present) && (set == 0 || holds(set, place))
}
