// Questions that decide a wave.
ghost use Rattle.std.specs.Prelude.{◌≡◌, ◌||◌, ◌==◌};
ghost use Rattle.model.specs.Following.{follows};
ghost use Rattle.model.specs.Laws.{BoardsAreThere, HeadsAreFirst, WavesAreOne};
ghost use Rattle.model.specs.Waves.{goes_before};

use crate::messages::does_follow;
use ties::TieOrder;
use wire::Message;

// Whether a station with the one head votes for the candidate that the other head is: its own, or one
// that its head follows. Votes by this question make a board in every order of orderly messages, and a
// head is the first accepted message of its station that is not released.
pub fn votes_for(head: &Message, candidate: &Message) -> bool
    ensures answer { result ≡ (head.now.station == candidate.now.station || follows head.now candidate.now) }
    ensures boards { BoardsAreThere }
    ensures heads { HeadsAreFirst }
{
    head.station == candidate.station || does_follow(head, candidate)
}

// Whether the one head goes before the other in a wave. By a lawful order the heads of the sources have
// exactly one wave.
pub fn is_before<T: TieOrder>(order: &T, wave: u32, message: &Message, other: &Message) -> bool
    ensures answer { result ≡ goes_before (T.means order.now) wave message.now other.now }
    ensures one_wave { WavesAreOne }
{
    order.before(wave, message.into(), other.into())
}
