//! What each slot of a period is, and when in a slot a frame is in time.
//!
//! In each slot every node sends one frame. With `m` relay rounds a period has 2m + 4 slots: agreed
//! states; claims, and m rounds of what was heard of them; values; rows, and m rounds of what was
//! heard of them. So claims and rows are each told by an exchange of oral messages with m + 1
//! rounds (Lincoln and Rushby 1993), one slot a round. Time in a slot is counted in ticks. Nothing
//! here takes memory or refuses anything.
#![tactic(auto)]

ghost use Rattle.std.specs.Prelude.{◌≡◌, ◌≤◌};
ghost use Rattle.slot_plan.specs.Slots.{slot_count};
ghost use Rattle.slot_plan.specs.Ticks.{is_in_window, is_off_time};

pub mod laws;
mod slot;

pub use slot::Slot;

/// The tick at which a frame arrives where nothing befalls it.
pub const ON_TIME: u8 = 15;

/// The last tick of a slot; the first one is 0.
pub const LAST_TICK: u8 = 30;

/// How many slots a period has, where there are `m` relay rounds.
pub fn slot_count(m: u8) -> u8
    requires { m ≤ 3 }
    ensures { result ≡ slot_count m }
{
    2 * m + 4
}

/// Whether a frame that arrives at this tick is in time: from 10 to 20.
pub fn is_in_window(tick: u8) -> bool
    ensures { result ≡ is_in_window tick }
{
    10 <= tick && tick <= 20
}

/// Whether a slot has this tick, and a frame that arrives then isn't in time.
pub fn is_off_time(tick: u8) -> bool
    ensures { result ≡ is_off_time tick }
{
    tick <= LAST_TICK && !is_in_window(tick)
}
