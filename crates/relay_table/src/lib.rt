//! What one node hears of the relays of an item, flat and with no place worked out.
//!
//! Terms of paths of one node up to as many as there are rounds are kept, in the order of their
//! frames' entries; the frames of the last round are settled as they are read.
#![tactic(auto)]

mod free;
mod station;
mod table;

pub use table::Table;
