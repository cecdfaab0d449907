//! The record of a period of all nodes: the frames that they sent, what each made of them, and how
//! they corrected their clocks.
//!
//! All memory of a record is taken when it is opened.
#![tactic(auto)]

mod clocks;
mod record;

pub use clocks::{ClockRecord, first_clocks};
pub use record::PeriodRecord;

/// The length of the longest frame that there is, in bytes: of 16 nodes, with three relay rounds.
pub const LONGEST_FRAME: usize = 90_104;
