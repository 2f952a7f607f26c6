// Putting the heads of the sources into the order of a wave.
ghost use Rattle.std.specs.Prelude.{◌≡◌, ◌+◌, ◌<◌, ◌≤◌, length, take};
ghost use Rattle.model.specs.Arrays.{Sized, heads_by_station, place_for, wave_messages};
ghost use Rattle.model.specs.Waves.{put_in, wave_of};

use crate::entry::NOTHING;
use crate::wave::{MOST, Wave};
use crate::waves::is_before;
use board::sets::{STATIONS, holds};
use ties::TieOrder;
use wire::Message;

// The wave of the sources: their heads in tie order.
pub fn wave_of<T: TieOrder>(
    order: &T,
    wave: u32,
    heads: &[Option<Message>; STATIONS],
    sources: u16,
) -> Wave
    ensures messages { wave_messages result ≡ wave_of (T.means order.now) wave (heads_by_station heads.now) sources }
    ensures sources { result.sources ≡ sources }
    ensures sized { Sized result }
{
    let mut messages = [NOTHING; MOST];
    let mut count = 0;
    for (place, head) in heads.iter().enumerate() {
        if holds(sources, place)
            && let Some(head) = head
        {
            put_at_its_place(order, wave, head, &mut messages, count);
            count += 1;
        }
    }
    Wave {
        sources,
        messages,
        count,
    }
}

// Puts a message among the first messages of an array, before the first that it goes before.
fn put_at_its_place<T: TieOrder>(
    order: &T,
    wave: u32,
    message: &Message,
    messages: &mut [Message; MOST],
    count: usize,
)
    requires { count < 16 }
    ensures put { take (count + 1) messages.new ≡ put_in (T.means order.now) wave message.now (take count messages.old) }
    ensures places { length messages.new ≡ 16 }
{
    let place = find_place(order, wave, message, &messages[0..count]);
    messages[count] = *message;
    messages[place..count + 1].rotate_right(1);
}

// The place that a message takes among others: before the first that it goes before, or at the end.
// Order and wave stay two parameters, as wave_of and is_before take them: a struct of both would serve here alone.
fn find_place<T: TieOrder>(order: &T, wave: u32, message: &Message, messages: &[Message]) -> usize
    ensures place { result ≡ place_for (T.means order.now) wave message.now messages.now }
    ensures within { result ≤ length messages.now }
{
    messages
        .iter()
        .position(|other| is_before(order, wave, message, other))
        .unwrap_or(messages.len())
}
