//! The events that a node is told, read from lines.

ghost use Rattle.std.specs.Prelude.{◌≡◌, ◌+◌, ◌*◌, ◌≤◌, ℕ, List, IfSome};
ghost use Rattle.std.specs.Prelude.{length, option_map};
ghost use Rattle.live_node.specs.Event.{event_of, of_one_word, of_two_words};
ghost use Rattle.live_node.specs.Event.{of_three_words, of_four_words};
ghost use Rattle.live_node.specs.Seen.{event_in, FitsIn};

use crate::words::{bytes_in, number_in, split, value_in};
use slot_plan::LAST_TICK;

/// What is told to the node.
#[derive(Clone, Copy)]
pub(crate) enum Event {
    /// The next period begins, or this one.
    Begin(Option<u32>),
    /// A frame arrives in the open slot: from a node, at a tick, and so many bytes at the front of
    /// a room.
    Deliver { from: u8, tick: u8, size: usize },
    /// The open slot ends.
    End,
    /// The node forgets all.
    Restart,
    /// What the node reads of a channel in the next period.
    Reading { channel: u8, value: i64 },
    /// How far the clock of a node is ahead of its own, as it reads it in this period.
    Ahead { node: u8, by: i64 },
}

/// The event that one word is.
fn of_one_word(word: &[u8]) -> Option<Event>
    ensures event { (room : List ℕ)
        → option_map (event_in room) result ≡ of_one_word word.now }
    ensures fits { (room : ℕ) → IfSome result (FitsIn room) }
{
    if word == b"begin".as_slice() {
        Some(Event::Begin(None))
    } else if word == b"end".as_slice() {
        Some(Event::End)
    } else if word == b"restart".as_slice() {
        Some(Event::Restart)
    } else {
        None
    }
}

/// The event that two words are.
fn of_two_words(word: &[u8], second: &[u8]) -> Option<Event>
    ensures event { (room : List ℕ)
        → option_map (event_in room) result ≡ of_two_words word.now second.now }
    ensures fits { (room : ℕ) → IfSome result (FitsIn room) }
{
    if word != b"begin".as_slice() {
        return None;
    }
    let period = number_in(second, u64::from(u32::MAX))?;
    Some(Event::Begin(Some(period as u32)))
}

/// The event that three words are.
fn of_three_words(word: &[u8], second: &[u8], third: &[u8]) -> Option<Event>
    ensures event { (room : List ℕ)
        → option_map (event_in room) result ≡ of_three_words word.now second.now third.now }
    ensures fits { (room : ℕ) → IfSome result (FitsIn room) }
{
    if word == b"reading".as_slice() {
        let channel = number_in(second, 7)? as u8;
        let value = value_in(third)?;
        Some(Event::Reading { channel, value })
    } else if word == b"ahead".as_slice() {
        let node = number_in(second, 15)? as u8;
        let by = value_in(third)?;
        Some(Event::Ahead { node, by })
    } else {
        None
    }
}

/// The event that four words are. The bytes of its frame are put at the front of the room.
fn of_four_words(
    word: &[u8],
    second: &[u8],
    third: &[u8],
    fourth: &[u8],
    room: &mut [u8],
) -> Option<Event>
    requires fits { length fourth.now ≤ 2 * length room.old + 1 }
    ensures event { option_map (event_in room.new) result
        ≡ of_four_words word.now second.now third.now fourth.now }
    ensures fits { IfSome result (FitsIn (length room.old)) }
    ensures room { length room.new ≡ length room.old }
{
    if word != b"deliver".as_slice() {
        return None;
    }
    let from = number_in(second, 15)? as u8;
    let tick = number_in(third, u64::from(LAST_TICK))? as u8;
    let size = bytes_in(fourth, room)?;
    Some(Event::Deliver { from, tick, size })
}

/// The event that a line tells, if any. The bytes of a frame that arrives are put at the front of
/// the room.
pub(crate) fn event_of(line: &[u8], room: &mut [u8]) -> Option<Event>
    requires fits { length line.now ≤ 2 * length room.old + 1 }
    ensures event { option_map (event_in room.new) result ≡ event_of line.now }
    ensures fits { IfSome result (FitsIn (length room.old)) }
    ensures room { length room.new ≡ length room.old }
{
    let (word, behind) = split(line);
    let Some(behind) = behind else {
        return of_one_word(word);
    };
    let (second, behind) = split(behind);
    let Some(behind) = behind else {
        return of_two_words(word, second);
    };
    let (third, behind) = split(behind);
    let Some(behind) = behind else {
        return of_three_words(word, second, third);
    };
    let (fourth, behind) = split(behind);
    if behind.is_some() {
        return None;
    }
    of_four_words(word, second, third, fourth, room)
}
