//! The frames of a relay round, read side by side.
//!
//! The paths without one member are those of all paths that it isn't on, in the same order. So each
//! frame is read from its first entry to its last while all paths are gone through, and no place of
//! a path is worked out.
#![tactic(auto)]

mod round;
mod walk;

pub use round::Round;
pub use walk::set_term;
