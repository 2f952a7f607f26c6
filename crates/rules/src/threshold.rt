// A threshold Φ over any rule, a threshold included.
ghost use Rattle.std.specs.Prelude.{◌≡◌};
ghost use Rattle.rules.specs.Piles.{AnswersAsAPile, PilesAreLawful, TopsThePile};
ghost use Rattle.rules.specs.Thresholds.{threshold};
ghost use Rattle.rules.specs.ThresholdLaws.{threshold_lawful};

use board::{Board, Rule};

mod sentences;

use sentences::View;

// The rule of Φ over the rule below, for the groups of that rule.
#[derive(Clone, Copy)]
pub struct Threshold<R> {
    phi: u8,
    below: R,
}

impl<R: Rule> Threshold<R> {
    // Φ over a rule.
    pub fn over(phi: u8, below: R) -> Threshold<R>
        ensures upper { result.phi ≡ phi }
        ensures lower { result.below ≡ below }
        ensures piled { TopsThePile phi (R.Rule.means below) (threshold result.phi (R.Rule.means result.below)) }
        ensures lawful { PilesAreLawful }
    {
        Threshold { phi, below }
    }

    // The answer to a board of the pile that this threshold tops.
    pub fn settle_pile(&self, board: &Board) -> Option<u16>
        ensures answer { result ≡ (threshold self.now.phi (R.Rule.means self.now.below)).answer board.now }
        ensures piled { AnswersAsAPile self.now.phi (R.Rule.means self.now.below) board.now result }
    {
        self.settle(board)
    }
}

impl<R: Rule> Rule for Threshold<R> {
    ghost means = { λ rule. threshold rule.phi (R.Rule.means rule.below) };

    ghost lawful = { λ rule. threshold_lawful rule.phi (R.Rule.means rule.below) (R.Rule.lawful rule.below) };

    fn stations(&self) -> u8 {
        self.below.stations()
    }

    fn settle(&self, board: &Board) -> Option<u16> {
        if board.n != self.below.stations() {
            return None;
        }
        let view = View {
            phi: self.phi,
            board,
        };
        if view.asks_below() {
            self.below.settle(board)
        } else if view.settles() {
            Some(view.sources())
        } else {
            None
        }
    }
}
