//! The run of a scenario, period by period, with all nodes worked out together: what nodes keep,
//! hear, settle and vote alike is worked out once.
//!
//! All memory of a run is taken when it is opened.
#![tactic(auto)]

mod beginning;
mod claims;
mod dues;
mod ending;
mod hearing;
mod keeping;
mod period;
mod rows;
mod run;
mod values;
mod votes;

pub use run::Run;
