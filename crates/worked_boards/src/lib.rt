// Boards worked through by hand: what a rule answers where just those are present that vote.
#![tactic(auto)]

ghost use Rattle.std.specs.Prelude.{◌≡◌, length};
ghost use Rattle.worked_boards.specs.Asking.{asked};
ghost use Rattle.worked_boards.specs.Cases.{NobodyIsABoard, WorkedOut, cases};

use board::sets::STATIONS;
use board::{Board, Rule, voting};
use wire::Fault;

// What the rule answers to the board of these votes: refuses an n outside 1 to 16, then votes that
// are no board.
pub fn ask<R: Rule>(rule: &R, n: u8, voters: [u16; STATIONS]) -> Result<Option<u16>, Fault>
    ensures { result ≡ asked (R.Rule.means rule.now) n voters }
{
    let board = Board::new(n, voting(&voters), voters)?;
    Ok(rule.settle(&board))
}

// How many boards the table of worked boards has; the rules answer each as the table says. Where nobody
// is present there is a board too.
pub fn worked_boards() -> usize
    ensures table { result ≡ length cases }
    ensures answers { WorkedOut }
    ensures nobody { NobodyIsABoard }
{
    15
}

#[cfg(test)]
mod tests;
