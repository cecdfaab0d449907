//! One node's log, replayed without the cluster: the node is delivered what the log says it was
//! delivered, and shows what it makes of each period.
#![tactic(auto)]

mod alone;
mod delivering;
mod entry;
mod judging;
pub mod laws;
mod reading;
mod record;
mod table;

pub use alone::Alone;
pub use record::Record;
