// Questions to a board, and when two are the same.
ghost use Rattle.std.specs.Prelude.{◌≡◌, Decides};
ghost use Rattle.board.specs.Ballots.{votes_for};
ghost use Rattle.board.specs.Boards.{ComparingDecides, absent, all_present, candidate, is_absent, is_present, is_same_board, lead, member, voters_at};
ghost use Rattle.board.specs.Sets.{set_of};
ghost use Rattle.std.specs.Cmp.Rules.{comparing};
ghost use Rattle.std.proofs.Common.{rules};

use crate::board::Board;
use crate::sets::{first, holds, minus, size};

impl Board {
    // Whether two boards are the same board, which is what comparing them by `==` answers.
    pub fn is_same(&self, other: &Board) -> bool
        ensures answer { result ≡ is_same_board self.now other.now }
        ensures same { Decides result (self.now ≡ other.now) }
        ensures compared { (board other : Board) → ⟦<Board as PartialEq>⟧.eq board other ≡ is_same_board board other }
        ensures comparing { ComparingDecides }
    {
        self == other
    }

    // The stations of the group.
    pub fn members(&self) -> u16
        ensures { result ≡ set_of (member self.now) }
    {
        first(self.n)
    }

    // The stations of the group that have no head.
    pub fn absent_set(&self) -> u16
        ensures { result ≡ set_of (is_absent self.now) }
    {
        minus(self.members(), self.present)
    }

    // How many stations are absent.
    pub fn absent_count(&self) -> u32
        ensures { result ≡ absent self.now }
    {
        size(self.absent_set())
    }

    // Whether every station of the group has a head.
    pub fn all_present(&self) -> bool
        ensures { result ≡ all_present self.now }
    {
        self.absent_count() == 0
    }

    // Whether the station at a place has a head.
    pub fn is_present(&self, place: usize) -> bool
        ensures { result ≡ is_present self.now place }
    {
        holds(self.present, place)
    }

    // The stations that vote for the candidate at a place: none where there is no candidate.
    pub fn voters_of(&self, place: usize) -> u16
        ensures { result ≡ votes_for self.now.voters place }
    {
        self.voters.get(place).copied().unwrap_or(0)
    }

    // Whether the station at a place has a candidate.
    pub fn has_candidate(&self, place: usize) -> bool
        ensures { result ≡ candidate self.now place }
    {
        self.voters_of(place) != 0
    }

    // How many stations vote for the candidate at a place.
    pub fn voter_count(&self, place: usize) -> u32
        ensures { result ≡ voters_at self.now place }
    {
        size(self.voters_of(place))
    }

    // How many stations vote for the candidate at the one place and not for that at the other.
    pub fn lead_over(&self, one: usize, other: usize) -> u32
        ensures { result ≡ lead self.now one other }
    {
        size(minus(self.voters_of(one), self.voters_of(other)))
    }
}

// A derive would compare the same three fields, but a caller of `==` would not be told the clauses below.
impl PartialEq for Board {
    ghost eq = { is_same_board };

    ghost laws = { Prim.search (comparing, rules) };

    // Two boards are equal just where they are the same board.
    fn eq(&self, other: &Board) -> bool
        ensures answer { result ≡ is_same_board self.now other.now }
        ensures same { Decides result (self.now ≡ other.now) }
        ensures comparing { ComparingDecides }
    {
        if self.n != other.n {
            return false;
        }
        if self.present != other.present {
            return false;
        }
        self.voters == other.voters
    }
}
