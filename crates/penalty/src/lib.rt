//! Counts of penalties, and the policy that says how they rise and fall.
//!
//! A node that is charged with errors has a count that rises by their weights; periods without a
//! charge let it fall again. Counts, exclusion and readmission follow Kieckhafer et al. (1988) in
//! outline; weights, credit, streak and cap are this project's own. Nothing here takes memory or
//! refuses anything.
#![tactic(auto)]

mod counts;

pub use counts::Counts;

/// How errors are weighed, and when a node leaves the members and joins them.
#[derive(Clone, Copy)]
pub struct Policy {
    /// What an error of each kind adds to a count: 0 to 1000, and 0 for a kind that isn't in use.
    pub weights: [u16; 16],
    /// A member with a count of at least this leaves: 1 to `cap`.
    pub exclude: u16,
    /// A node with a count of at most this may join: below `exclude`.
    pub readmit: u16,
    /// What a full streak takes off a count: 0 to 60000.
    pub credit: u16,
    /// How many periods without a charge make a streak full: 1 to 60000.
    pub streak: u16,
    /// No count rises above this: 1 to 60000.
    pub cap: u16,
    /// A node that left the members so often never joins them again: 0 to 60000, where 0 is for no
    /// limit.
    pub retire: u16,
}
