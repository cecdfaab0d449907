//! What is drawn of a node that falls ill.

/// What befalls a frame.
#[derive(Clone, Copy)]
pub enum Fault {
    /// It doesn't arrive; in all slots.
    Silent,
    /// It arrives late; in all slots.
    Late,
    /// It arrives two times; in all slots.
    Twice,
    /// A wrong value of a channel.
    Value {
        /// The channel.
        channel: u8,
        /// By how much the value exceeds -2000.
        value: u32,
    },
    /// A false accusation.
    Accusation {
        /// The node that is accused.
        accused: u8,
        /// Of which kinds of error, the least of which is bit 0.
        kinds: u8,
    },
}

/// How a node that is ill treats the others.
#[derive(Clone, Copy)]
pub enum Conduct {
    /// All others alike.
    Alike {
        /// What befalls its frames.
        fault: Fault,
        /// What it adds to its clock where others read it.
        lie: Option<i64>,
    },
    /// Some of the others otherwise than the rest.
    Apart {
        /// Which are some: bit k stands for the other node k, counted from 0 without the node
        /// itself.
        some: u32,
        /// What befalls its frames to some.
        fault: Fault,
        /// What befalls its frames to the rest, if anything does.
        rest: Option<Fault>,
        /// What it adds to its clock where some read it, and where the rest do.
        lies: Option<(i64, i64)>,
    },
}

/// A time for which a node is ill.
#[derive(Clone, Copy)]
pub struct Bout {
    /// The node.
    pub node: u8,
    /// The first period, from 1 on.
    pub first: u32,
    /// The last period.
    pub last: u32,
    /// What it does in these periods.
    pub conduct: Conduct,
}
