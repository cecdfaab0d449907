//! The printed texts of a run: periods, nodes, frames, the summary of a storm, the end, and
//! refusals. Nothing here takes memory.
#![tactic(auto)]

mod clock;
mod common;
mod gathered;
mod node;
mod period;
mod pieces;
mod printer;
mod shown;
mod storm;
mod texts;
mod trace;

pub use node::write_alone;
pub use period::{write_end, write_head, write_period, write_refused};
pub use printer::{LARGE, Printer};
pub use shown::{write_shown, write_shown_head};
pub use storm::{StormSum, write_storm};
use thiserror::Error;

/// A text was not written whole.
#[derive(Clone, Copy, Debug, PartialEq, Eq, Error)]
#[error("the output could not be written")]
pub struct WriteFault;
