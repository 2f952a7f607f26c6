// The sentences of a threshold, each as a question to a board.
ghost use Rattle.std.specs.Prelude.{◌≡◌, ◌+◌, ◌≤◌, ◌&&◌, nat_eq, nat_lt};
ghost use Rattle.board.specs.Boards.{absent, candidate, lead};
ghost use Rattle.board.specs.Sets.{any, every, implies, set_of};
ghost use Rattle.rules.specs.Thresholds.{asks_below, cannot_pass, few_absent, out_of_it, passes, settles, source};

use board::Board;
use board::sets::{STATIONS, alone, join};

// A board as a threshold of Φ sees it.
#[derive(Clone, Copy)]
pub struct View<'a> {
    pub phi: u8,
    pub board: &'a Board,
}

impl View<'_> {
    // Whether the rule below answers.
    pub fn asks_below(&self) -> bool
        ensures { result ≡ asks_below self.now.phi self.now.board.now }
    {
        self.are_few_absent() && self.can_none_pass()
    }

    // Whether the board is settled where the rule below does not answer.
    pub fn settles(&self) -> bool
        ensures { result ≡ settles self.now.phi self.now.board.now }
    {
        self.are_few_absent() && self.does_some_pass() && self.are_others_out()
    }

    // The sources where the rule below does not answer. Their sets are joined as they come, since sixteen
    // answers that are kept until the last take longer.
    pub fn sources(&self) -> u16
        ensures { result ≡ set_of (source self.now.phi self.now.board.now) }
    {
        (0..STATIONS)
            .map(|place| alone_if(self.is_source(place), place))
            .fold(0, join)
    }

    // Whether at most Φ stations are absent.
    fn are_few_absent(&self) -> bool
        ensures { result ≡ few_absent self.now.phi self.now.board.now }
    {
        self.board.absent_count() <= u32::from(self.phi)
    }

    // Whether no candidate can have more than Φ voters.
    fn can_none_pass(&self) -> bool
        ensures { result ≡ every (λ place. implies (candidate self.now.board.now place) (cannot_pass self.now.phi self.now.board.now place)) }
    {
        (0..STATIONS).all(|place| self.is_no_passing_candidate(place))
    }

    // Whether some candidate has more than Φ voters.
    fn does_some_pass(&self) -> bool
        ensures { result ≡ any (λ place. candidate self.now.board.now place && passes self.now.phi self.now.board.now place) }
    {
        (0..STATIONS).any(|place| self.is_passing_candidate(place))
    }

    // Whether every candidate that is no source cannot have more than Φ voters, and is led.
    fn are_others_out(&self) -> bool
        ensures { result ≡ every (out_of_it self.now.phi self.now.board.now) }
    {
        (0..STATIONS).all(|place| self.is_out_of_it(place))
    }

    // Whether more than Φ stations vote for the candidate at a place.
    fn passes(&self, place: usize) -> bool
        ensures { result ≡ passes self.now.phi self.now.board.now place }
    {
        self.board.voter_count(place) > u32::from(self.phi)
    }

    // Whether the voters of a candidate, with all that are absent, are at most Φ.
    fn does_fall_short(&self, place: usize) -> bool
        ensures { result ≡ cannot_pass self.now.phi self.now.board.now place }
    {
        self.board.voter_count(place) + self.board.absent_count() <= u32::from(self.phi)
    }

    // Whether some candidate's lead over a place, with so many votes more, exceeds Φ. It is inlined, since
    // it is asked for each of sixteen places.
    #[inline(always)]
    fn is_led_with(&self, place: usize, more: u32) -> bool
        requires { more ≤ 16 }
        ensures { result ≡ any (λ other. candidate self.now.board.now other && nat_lt self.now.phi (lead self.now.board.now other place + more)) }
    {
        (0..STATIONS).any(|other| self.does_lead_with(other, place, more))
    }

    // Whether one place has a candidate whose lead over another, with so many votes more, exceeds Φ.
    fn does_lead_with(&self, other: usize, place: usize, more: u32) -> bool
        requires { more ≤ 16 }
        ensures { result ≡ (candidate self.now.board.now other && nat_lt self.now.phi (lead self.now.board.now other place + more)) }
    {
        self.board.has_candidate(other)
            && self.board.lead_over(other, place) + more > u32::from(self.phi)
    }

    // Whether a place has a candidate with more than Φ voters.
    fn is_passing_candidate(&self, place: usize) -> bool
        ensures { result ≡ (candidate self.now.board.now place && passes self.now.phi self.now.board.now place) }
    {
        self.board.has_candidate(place) && self.passes(place)
    }

    // Whether a candidate at a place, if there is one, cannot have more than Φ voters.
    fn is_no_passing_candidate(&self, place: usize) -> bool
        ensures { result ≡ implies (candidate self.now.board.now place) (cannot_pass self.now.phi self.now.board.now place) }
    {
        !self.board.has_candidate(place) || self.does_fall_short(place)
    }

    // Whether a place has a candidate that is a source. It is inlined for the same reason.
    #[inline(always)]
    fn is_source(&self, place: usize) -> bool
        ensures { result ≡ source self.now.phi self.now.board.now place }
    {
        self.board.has_candidate(place)
            && (self.passes(place) || !self.is_led_with(place, self.board.absent_count()))
    }

    // Whether a candidate at a place, if it is no source, cannot have more than Φ voters, and is led.
    fn is_out_of_it(&self, place: usize) -> bool
        ensures { result ≡ out_of_it self.now.phi self.now.board.now place }
    {
        !self.board.has_candidate(place)
            || self.is_source(place)
            || (self.does_fall_short(place) && self.is_led_with(place, 0))
    }
}

// The set of the station at a place alone if it is chosen, and else of none.
fn alone_if(is_chosen: bool, place: usize) -> u16
    ensures { result ≡ set_of (λ other. nat_eq other place && is_chosen) }
{
    if is_chosen { alone(place) } else { 0 }
}
