//! The kinds of error: numbers of bits in a mask of accusations.

/// Nothing came from the sender in the slot.
pub const MISSING: u8 = 0;

/// What came is no frame for the slot, or several frames came.
pub const MALFORMED: u8 = 1;

/// The frame came outside the window.
pub const TIMING: u8 = 2;

/// The sender has no agreed state.
pub const COLD: u8 = 3;

/// The sender's agreed state is another one.
pub const STATE: u8 = 4;

/// The sender claims a task that it doesn't run, or claims it too early.
pub const CLAIM: u8 = 5;

/// The sender runs a task longer than it may.
pub const OVERRUN: u8 = 6;

/// A value of the sender is further from the vote than its channel allows.
pub const DEVIATE: u8 = 7;

/// The sender told different things to different members. In version 2 alone.
pub const EQUIVOCATE: u8 = 8;
