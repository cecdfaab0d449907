//! The entries of a log, one by one.

/// One delivery.
#[derive(Drop)]
pub(crate) struct Entry {
    /// The period, and its slot.
    pub(crate) period: u32,
    pub(crate) slot: u8,
    /// The sender.
    pub(crate) from: u8,
    /// The tick of the slot, 0 to 30.
    pub(crate) tick: u8,
    /// The bytes that arrived.
    pub(crate) bytes: Vec<u8>,
}
