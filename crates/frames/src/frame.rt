//! What frames say, and what a receiver expects of them.

ghost use Rattle.std.specs.Prelude.{ℕ, ◌≡◌};
ghost use Rattle.frames.specs.Spelling.{head_of};
ghost use Rattle.frames.specs.Content.{is_cold};
ghost use Rattle.frames.specs.Seen.{content, expected};

use crate::cells::Cells;
use crate::values::Values;
use arrayvec::ArrayVec;
use node_grid::{NodeSet, Row};

/// The bytes of an agreed state: room for those of the largest configuration.
pub type StateBody = ArrayVec<u8, 1152>;

/// Who sent a frame, for which slot of which period, and in which version of the formats.
#[derive(Clone, Copy)]
pub struct Head {
    /// The version, 1 or 2.
    pub version: u8,
    /// The period.
    pub period: u32,
    /// The sender.
    pub sender: u8,
    /// The slot of the period.
    pub slot: u8,
}

/// A frame.
#[derive(Clone, Copy)]
pub struct Frame<'a, const N: usize> {
    /// Who sent it, and for which slot.
    pub head: Head,
    /// What it says.
    pub body: Body<'a, N>,
}

/// What a frame says.
#[derive(Clone, Copy)]
pub enum Body<'a, const N: usize> {
    /// The sender's agreed state.
    State(&'a [u8]),
    /// The task that the sender claims to have done, or `NO_CLAIM`.
    Done0(u8),
    /// For each path, what the sender heard of claims.
    DoneRelay(Cells<'a>),
    /// The sender's value of each due channel.
    Data(Values<'a>),
    /// The sender's row of accusations.
    Report0(Row<N>),
    /// For each path, what the sender heard of rows.
    ReportRelay(Cells<'a>),
    /// The sender is cold: it has nothing to say.
    Cold,
}

impl<const N: usize> Body<'_, N> {
    /// Whether it says that the sender is cold.
    pub fn is_cold(&self) -> bool
        ensures { (nodes : ℕ) → result ≡ is_cold (content nodes self.now) }
    {
        match self {
            Body::State(_) | Body::Done0(_) | Body::DoneRelay(_) | Body::Data(_) => false,
            Body::Report0(_) | Body::ReportRelay(_) => false,
            Body::Cold => true,
        }
    }
}

/// What a receiver expects of a frame.
#[derive(Clone, Copy)]
pub struct Expect<const N: usize> {
    /// The version, 1 or 2, of which the masks of rows have 8 or 16 bits.
    pub version: u8,
    /// The number of nodes.
    pub nodes: u8,
    /// The number of relay rounds.
    pub m: u8,
    /// The period.
    pub period: u32,
    /// The slot of the period.
    pub slot: u8,
    /// The sender.
    pub sender: u8,
    /// The members.
    pub members: NodeSet<N>,
    /// The number of bytes of an agreed state.
    pub state_len: u16,
    /// The number of tasks.
    pub tasks: u8,
    /// The number of due channels.
    pub due: u8,
}

impl<const N: usize> Expect<N> {
    /// The head that is expected.
    pub fn head(&self) -> Head
        ensures { result ≡ head_of (expected self.now) }
    {
        Head {
            version: self.version,
            period: self.period,
            sender: self.sender,
            slot: self.slot,
        }
    }
}
