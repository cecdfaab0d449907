//! Options by which scenarios are drawn, read from JSON text.
#![tactic(auto)]

mod parts;
mod reading;

pub use reading::{OptionError, read};
