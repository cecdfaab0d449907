//! What a first frame tells.

/// What a receiver has of an item from its sender's own frame.
#[derive(Clone, Copy)]
pub enum Told<V> {
    /// The item.
    Good(V),
    /// The kind of error that is found of what came, or of there being nothing.
    Bad(u8),
}
