// The board: who is present, and who votes for whom.
ghost use Rattle.std.specs.Prelude.{◌≡◌, true};
ghost use Rattle.board.specs.Ballots.{is_board, is_group};

use crate::sets::STATIONS;

mod calls;
mod making;

pub use making::voting;
pub use wire::is_group;

// What a rule is shown. Station j is bit j − 1 of a set, and its place is j − 1.
#[derive(Clone, Copy, Debug, Eq)]
pub struct Board {
    // how many stations the group has
    pub n: u8,
    // the stations that have a head
    pub present: u16,
    // at each place the stations that vote for its candidate: none where it has no candidate
    pub voters: [u16; STATIONS],
    ghost group: { is_group n ≡ true },
    ghost holds: { is_board n present voters ≡ true },
}
