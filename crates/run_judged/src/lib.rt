//! What the run of a scenario comes to: the row of the run, and the rows of its illnesses.
#![tactic(auto)]

mod apart;
mod findings;
mod found;
mod illness;
mod illnesses;
mod judge;
pub mod laws;
mod row;
mod seen;
mod tally;

pub use illness::Illness;
pub use judge::Judge;
pub use row::RunRow;
pub use tally::Loss;
