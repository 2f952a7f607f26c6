// Who is present, and who votes for whom, by the heads and the released counts.
ghost use Rattle.std.specs.Prelude.{◌≡◌, ◌<◌, None, Some, slice_index_or};
ghost use Rattle.model.specs.Arrays.{counts_by_station, present_in, raised_counts, voter_sets_in, voters_in};
ghost use Rattle.model.specs.Heads.{backs, is_ready};

use crate::messages::exceeds;
use crate::waves::votes_for;
use board::sets::{STATIONS, holds, set_of};
use std::array;
use wire::Message;

// The stations that have a head.
pub fn present(heads: &[Option<Message>; STATIONS]) -> u16
    ensures { result ≡ present_in heads.now }
{
    set_of(&array::from_fn(|place| heads[place].is_some()))
}

// For each of sixteen stations, those that vote for its candidate.
pub fn voter_sets(
    heads: &[Option<Message>; STATIONS],
    released: &[u16; STATIONS],
) -> [u16; STATIONS]
    ensures { result ≡ voter_sets_in heads.now released.now }
{
    let vote = Vote { heads, released };
    array::from_fn(|place| vote.voters(place))
}

// What decides the votes: the head of each station, and how many of its messages are released.
#[derive(Clone, Copy)]
struct Vote<'a> {
    heads: &'a [Option<Message>; STATIONS],
    released: &'a [u16; STATIONS],
}

// A place is a number below 16: from_fn gives numbers, so a type of places would be made anew at each call.
impl Vote<'_> {
    // The stations that vote for the candidate at a place: none where there is no candidate. Whether there is
    // one is asked once, and not for each voter.
    fn voters(&self, place: usize) -> u16
        requires { place < 16 }
        ensures { result ≡ voters_in self.now.heads.now self.now.released.now place }
    {
        match &self.heads[place] {
            Some(head) if self.is_ready(head) => {
                set_of(&array::from_fn(|voter| self.does_vote(voter, head)))
            }
            _ => 0,
        }
    }

    // Whether the station at a place votes for a candidate.
    fn does_vote(&self, voter: usize, candidate: &Message) -> bool
        requires { voter < 16 }
        ensures { result ≡ backs (slice_index_or self.now.heads.now voter None) (Some candidate.now) }
    {
        self.heads[voter]
            .as_ref()
            .is_some_and(|own| votes_for(own, candidate))
    }

    // Whether all that a message follows is released.
    fn is_ready(&self, message: &Message) -> bool
        ensures { result ≡ is_ready (counts_by_station self.now.released.now) message.now }
    {
        !exceeds(&message.after, self.released)
    }
}

// The counts with one more for each source; a count that is as high as it can be stays.
pub fn with_one_more(counts: &[u16; STATIONS], sources: u16) -> [u16; STATIONS]
    ensures { result ≡ raised_counts counts.now sources }
{
    array::from_fn(|place| counts[place].saturating_add(u16::from(holds(sources, place))))
}
