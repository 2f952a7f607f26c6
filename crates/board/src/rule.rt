// What a rule is: shown a board, it is open, or it is settled and names the sources.
ghost use Rattle.std.specs.Prelude.{◌≡◌};
ghost use Rattle.board.specs.Rules.{Lawful, RuleMeaning};

use crate::board::Board;

// A rule for the groups of one n. Asking it alters nothing.
pub trait Rule {
    // the n that it is made for, and its answer to each board
    ghost means: { Self → RuleMeaning };

    // How many stations the groups have that the rule is made for.
    fn stations(&self) -> u8
        ensures { result ≡ (means self.now).n };

    // The sources of a settled board, or nothing while the board is open.
    fn settle(&self, board: &Board) -> Option<u16>
        ensures { result ≡ (means self.now).answer board.now };

    // the laws of its answers, which every rule owes
    ghost lawful: { (rule : Self) → Lawful (means rule) };
}
