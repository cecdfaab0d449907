//! What a receiver has of a frame by the effect of the line that touches it.

ghost use Rattle.std.specs.Prelude.{◌≡◌, ℕ, ◌^◌, ◌<◌, ◌≤◌, length, Some, IfSome, is_none};
ghost use Rattle.frames.specs.Content.{Content, Expectation};
ghost use Rattle.frames.specs.Seen.{content, expected, HasWidth};
ghost use Rattle.frames.specs.Spelling.{spelling, body_spelling, head_of, IsInRange};
ghost use Rattle.fault_classes.specs.Change.{change_of};
ghost use Rattle.fault_link.specs.Arrival.{patched};
ghost use Rattle.protocol.specs.Arrival.Arrival.{Bad};
ghost use Rattle.protocol.specs.Talk.{arrives};
ghost use Rattle.touched_frames.specs.Arrived.{seen, needs_bytes, replaced, IsCluster, IsSentAs};

use crate::arrived::{Arrived, read};
use fault_classes::Effect;
use frames::{Expect, Frame, encode};
use node_grid::kind::{MALFORMED, MISSING, TIMING};
use node_grid::{Capacity, Nodes};
use slot_plan::is_in_window;

/// The kind of error that is found of a frame with this effect whatever the frame says: it doesn't
/// come, not whole, more than once or not in time. None where that depends on its bytes.
pub fn unread_kind(effect: &Effect) -> Option<u8>
    ensures found { IfSome result (λ k. (sender receiver : Expectation) (c : Content) →
        IsInRange sender c → arrives Some (Some (change_of effect.now)) sender receiver c ≡ Bad k) }
    ensures unread { is_none result ≡ needs_bytes (change_of effect.now) }
{
    match effect {
        Effect::Drop => Some(MISSING),
        Effect::Twice => Some(MALFORMED),
        Effect::Cut(count) => { if *count > 0 { Some(MALFORMED) } else { None } }
        Effect::Time(tick) => {
            if is_in_window(*tick) {
                None
            } else {
                Some(TIMING)
            }
        }
        Effect::Set { .. } | Effect::Raw(_) => None,
    }
}

/// Writes other bytes over those of a frame from an offset on, as far as they fall within it.
fn patch(frame: &mut [u8], at: usize, bytes: &[u8])
    requires offset { at < 2 ^ 16 }
    ensures { frame.new ≡ patched at bytes.now frame.old }
{
    let end = frame.len().min(at + bytes.len());
    for place in at..end {
        frame[place] = bytes[place - at];
    }
}

/// Replaces the bytes of a frame that the effect replaces.
fn replace(effect: &Effect, frame: &mut [u8])
    ensures { frame.new ≡ replaced (change_of effect.now) frame.old }
{
    match effect {
        Effect::Set { at, bytes } => patch(frame, *at as usize, bytes.as_slice()),
        Effect::Drop | Effect::Twice | Effect::Cut(_) | Effect::Time(_) | Effect::Raw(_) => {}
    }
}

/// What a receiver has of a frame with this effect.
///
/// The frame is spelt on `room`, which must hold it, and read there, only where that depends on the
/// frame's own bytes.
pub fn arrives<'a, const N: usize>(
    effect: &'a Effect,
    frame: &Frame<'_, N>,
    receiver: &Expect<N>,
    room: &'a mut [u8],
) -> Arrived<'a, N>
where
    Nodes: Capacity<N>,
    requires cluster { IsCluster N receiver.now.nodes receiver.now.m }
    requires widths { HasWidth receiver.now.nodes frame.now.body }
    requires short { length (body_spelling receiver.now.nodes
        (content receiver.now.nodes frame.now.body)) < 2 ^ 32 }
    requires room { length (spelling receiver.now.nodes frame.now.head
        (content receiver.now.nodes frame.now.body)) ≤ length room.old }
    ensures { (sender : Expectation) → IsSentAs sender receiver.now.nodes frame.now.head
        (content receiver.now.nodes frame.now.body) →
        seen receiver.now.nodes result ≡ arrives Some (Some (change_of effect.now)) sender
        (expected receiver.now) (content receiver.now.nodes frame.now.body) }
{
    if let Some(kind) = unread_kind(effect) {
        return Arrived::Bad(kind);
    }
    if let Effect::Raw(bytes) = effect {
        return read(receiver, bytes.as_slice());
    }
    let len = encode(frame, receiver.nodes, room);
    let sent = &mut room[..len];
    replace(effect, sent);
    read(receiver, sent)
}
