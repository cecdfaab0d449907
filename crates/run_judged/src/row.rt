//! The row of a run.

use crate::tally::Loss;

/// What a run comes to.
#[derive(Clone, Copy)]
pub struct RunRow {
    /// The number of nodes.
    pub nodes: u8,
    /// The number of relay rounds, and of asymmetric members that are tolerated.
    pub m: u8,
    /// The number of periods, 1 to 1024.
    pub periods: u32,
    /// The number of fault lines.
    pub lines: u32,
    /// The number of restarts.
    pub restarts: u32,
    /// How many periods are claimed: they and all before them tolerate their faults.
    pub claimed: u32,
    /// The first period that doesn't tolerate its faults; None where all do.
    pub lost: Option<Loss>,
    /// The least of `n - (2a + 2s + b + m)` over the periods up to that one, and at most 0 in one
    /// with `a > m`: at least 1 exactly where all periods tolerate their faults. Always there.
    pub margin: Option<i64>,
    /// How often a node is charged in a period in which it isn't sound.
    pub charges: u32,
    /// How often a node is charged that was nonfaulty in all periods so far.
    pub false_charges: u32,
    /// How often such a node leaves the members.
    pub false_exclusions: u32,
    /// How far the votes of sound nodes on a channel are apart at most, in claimed periods; None
    /// where there are none.
    pub spread: Option<u64>,
    /// How far the clocks of sound nodes are apart at most at the end of claimed periods; None
    /// where there are none.
    pub skew: Option<u64>,
}
