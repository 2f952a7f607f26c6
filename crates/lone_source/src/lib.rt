// A maker's own rule, as an example: over any rule, only the source of the lowest station.
#![tactic(auto)]

ghost use Rattle.std.specs.Prelude.{◌≡◌};
ghost use Rattle.lone_source.specs.Lowest.{LoneSourcesAreLawful, lone_source, lowest_of};
ghost use Rattle.lone_source.specs.Laws.{lone_sources_are_lawful};

use board::sets::{STATIONS, alone, holds};
use board::{Board, Rule};

// Settles with the rule below, on one source: waves of one message.
#[derive(Clone, Copy)]
pub struct LoneSource<R> {
    below: R,
}

impl<R: Rule> LoneSource<R> {
    // One source over a rule.
    pub fn over(below: R) -> LoneSource<R>
        ensures lower { result.below ≡ below }
        ensures lawful { LoneSourcesAreLawful }
    {
        LoneSource { below }
    }
}

impl<R: Rule> Rule for LoneSource<R> {
    ghost means = { λ rule. lone_source (R.Rule.means rule.below) };

    ghost lawful = { λ rule. lone_sources_are_lawful (R.Rule.means rule.below) (R.Rule.lawful rule.below) };

    fn stations(&self) -> u8 {
        self.below.stations()
    }

    fn settle(&self, board: &Board) -> Option<u16> {
        self.below.settle(board).map(lowest)
    }
}

// The lowest station of a set, alone.
pub fn lowest(set: u16) -> u16
    ensures { result ≡ lowest_of set }
{
    (0..STATIONS)
        .find(|place| holds(set, *place))
        .map_or(0, alone)
}

#[cfg(test)]
mod tests;
