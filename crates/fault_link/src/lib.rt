//! What arrives of a frame, by the effect of the one fault line that touches it.
//!
//! Nothing here takes memory.
#![tactic(auto)]

ghost use Rattle.std.specs.Prelude.{◌≡◌, ◌^◌, ◌<◌, length, replicate, option_map};
ghost use Rattle.fault_classes.specs.Change.{change_of};
ghost use Rattle.fault_classes.specs.Line.{effect_at};
ghost use Rattle.fault_link.specs.Arrival.{delivered_of, patched};
ghost use Rattle.fault_link.specs.Transmission.{IsTransmission};

use fault_classes::{Effect, FaultPlan};
use slot_plan::ON_TIME;

/// What arrives at one receiver of one frame: so many copies, all alike.
#[derive(Clone, Copy)]
pub struct Delivered<'a> {
    /// How many copies arrive: 0, 1 or 2.
    pub copies: u8,
    /// The tick at which they arrive.
    pub tick: u8,
    /// The bytes of each copy.
    pub bytes: &'a [u8],
}

/// The transmission of one frame: from which node to which other, in which slot of which period.
#[derive(Clone, Copy)]
pub struct Transmission {
    /// The period.
    pub period: u32,
    /// The slot.
    pub slot: u8,
    /// The sender.
    pub from: u8,
    /// The receiver.
    pub to: u8,
}

/// What arrives of the frame `sent` by this transmission.
///
/// The bytes are those of `sent`, of the plan, or of `scratch`, which is written only where a line
/// sets bytes of the frame.
pub fn deliveries<'a, const N: usize>(
    plan: &'a FaultPlan<N>,
    on: Transmission,
    sent: &'a [u8],
    scratch: &'a mut [u8],
) -> Delivered<'a>
    requires on { IsTransmission plan.now on }
    requires room { length scratch.old ≡ length sent.now }
    ensures { replicate result.copies (result.tick, result.bytes.now)
        ≡ delivered_of (effect_at plan.now.lines on.period on.slot on.from on.to) sent.now }
{
    arrival(
        plan.effect(on.period, on.slot, on.from, on.to),
        sent,
        scratch,
    )
}

/// What arrives of a frame by an effect.
fn arrival<'a>(effect: Option<&'a Effect>, sent: &'a [u8], scratch: &'a mut [u8]) -> Delivered<'a>
    requires { length scratch.old ≡ length sent.now }
    ensures { replicate result.copies (result.tick, result.bytes.now)
        ≡ delivered_of (option_map (λ e. change_of e.now) effect.entry) sent.now }
{
    match effect {
        None => once(ON_TIME, sent),
        Some(Effect::Drop) => Delivered {
            copies: 0,
            tick: ON_TIME,
            bytes: &sent[..0],
        },
        Some(Effect::Cut(count)) => once(
            ON_TIME,
            &sent[..sent.len().saturating_sub(*count as usize)],
        ),
        Some(Effect::Twice) => Delivered {
            copies: 2,
            tick: ON_TIME,
            bytes: sent,
        },
        Some(Effect::Time(tick)) => once(*tick, sent),
        Some(Effect::Set { at, bytes }) => {
            patch(sent, *at as usize, bytes.as_slice(), scratch);
            once(ON_TIME, scratch)
        }
        Some(Effect::Raw(bytes)) => once(ON_TIME, bytes.as_slice()),
    }
}

/// One copy.
fn once(tick: u8, bytes: &[u8]) -> Delivered<'_>
    ensures copies { result.copies ≡ 1 }
    ensures tick { result.tick ≡ tick }
    ensures bytes { result.bytes.now ≡ bytes.now }
{
    Delivered {
        copies: 1,
        tick,
        bytes,
    }
}

/// Writes the frame with other bytes from an offset on, as far as they fall within it.
fn patch(sent: &[u8], at: usize, bytes: &[u8], scratch: &mut [u8])
    requires offset { at < 2 ^ 16 }
    requires room { length scratch.old ≡ length sent.now }
    ensures { scratch.new ≡ patched at bytes.now sent.now }
{
    scratch.copy_from_slice(sent);
    let end = scratch.len().min(at + bytes.len());
    for place in at..end {
        scratch[place] = bytes[place - at];
    }
}
