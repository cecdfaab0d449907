//! The lines of an input, one after another, as they come.
//!
//! A line is what stands before a line feed. Which lines there are is a function of the bytes
//! alone, whatever the pieces in which the source gives them. A line can be taken as soon as its
//! line feed was given, without another read.
#![tactic(auto)]

mod buffer;
pub mod laws;
mod lines;

pub use lines::{LineError, Lines};
