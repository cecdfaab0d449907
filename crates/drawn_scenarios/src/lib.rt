//! Scenarios that are drawn: from options, a seed and an index one that no rule refuses.
//!
//! Each index has a generator of its own, so any of them can be drawn alone.
#![tactic(auto)]

mod bout;
mod choices;
mod cluster;
mod drawing;
pub mod laws;
mod lines;
mod making;
mod option_parts;
mod options;
mod ranges;
mod series;

pub use bout::{Bout, Conduct, Fault};
pub use choices::{Choices, Classes, ClockChoices, FaultClass};
pub use making::{drawn, make};
pub use option_parts::{ClockOptionParts, OptionParts, OptionsError};
pub use options::Options;
