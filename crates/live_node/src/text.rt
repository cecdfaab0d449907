//! The lines that a node answers, in rooms that are taken once.

ghost use Rattle.std.specs.Prelude.{◌≡◌, ◌+◌, ◌*◌, ◌≤◌, length, vec_capacity};
ghost use Rattle.span_io.specs.Causes.{Writes};
ghost use Rattle.live_node.specs.Text.{say_text, correct_text};

use hex::encode_to_slice;
use itoa::Buffer;
use run_print::WriteFault;
use span_io::{Sink, write_all};

/// How many bytes a line has at most beside the digits of a frame.
pub(crate) const AROUND: usize = 32;

/// Spells the line of a slot, in which the node sends this frame.
pub(crate) fn spell_say(slot: u8, frame: &[u8], text: &mut Vec<u8>)
    requires room { 2 * length frame.now + 32 ≤ vec_capacity text.old }
    ensures text { text.new.items ≡ say_text slot frame.now }
    ensures room { vec_capacity text.old ≤ vec_capacity text.new }
{
    let mut buffer = Buffer::new();
    text.clear();
    let _within_room = text.extend_from_slice(b"say ").is_ok();
    let _within_room = text
        .extend_from_slice(buffer.format(slot).as_bytes())
        .is_ok();
    let _within_room = text.push(b' ').is_ok();
    let start = text.len();
    let _within_room = text.resize(start + 2 * frame.len(), 0).is_ok();
    let _same_length = encode_to_slice(frame, &mut text.as_mut_slice()[start..]).is_ok();
    let _within_room = text.push(b'\n').is_ok();
}

/// Spells the line of a clock that is corrected by so much.
pub(crate) fn spell_correct(by: i64, text: &mut Vec<u8>)
    requires room { 32 ≤ vec_capacity text.old }
    ensures text { text.new.items ≡ correct_text by }
    ensures room { vec_capacity text.old ≤ vec_capacity text.new }
{
    let mut buffer = Buffer::new();
    text.clear();
    let _within_room = text.extend_from_slice(b"correct ").is_ok();
    let _within_room = text.extend_from_slice(buffer.format(by).as_bytes()).is_ok();
    let _within_room = text.push(b'\n').is_ok();
}

/// Writes a line.
pub(crate) fn write<K: Sink>(line: &[u8], sink: &mut K) -> Result<(), WriteFault>
    ensures { Writes (K.written sink.old) (K.written sink.new)
        (K.faults sink.old) (K.faults sink.new) line.now result }
{
    match write_all(sink, line) {
        Ok(()) => Ok(()),
        Err(_) => Err(WriteFault),
    }
}
