/// The faulty node of a block, and in which periods a fault line touches its frames.
#[derive(Clone, Copy)]
pub struct Spell {
    /// The node: 5, 6 or 7.
    pub node: u8,
    /// The first period.
    pub first: u32,
    /// The last period, at most seven after the first.
    pub last: u32,
}
