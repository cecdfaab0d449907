//! Options as they are read.
ghost use Rattle.std.specs.Prelude.{◌≡◌};
ghost use Rattle.drawn_scenarios.specs.Options.{place_of};

use crate::choices::Classes;
use std::error::Error;
use std::fmt;

/// The clocks of the nodes, as options.
#[derive(Clone, Copy)]
pub struct ClockOptionParts {
    /// The greatest reading error, 0 to 2^20.
    pub epsilon: i64,
    /// How far two clocks drift apart in a period at most, 0 to 2^20.
    pub drift: i64,
    /// How far apart the clocks start at most, 0 to 2^40.
    pub start: i64,
    /// How much more or less a node that lies says of its clock at most, 0 to 2^40.
    pub lie: i64,
}

/// Options, before any rule on their numbers is tried.
#[derive(Clone, Copy)]
pub struct OptionParts {
    /// How many nodes the cluster has, 3 to 16.
    pub nodes: i64,
    /// How many relay rounds, 0 to 3, and fewer than nodes.
    pub m: i64,
    /// How many periods are run, 1 to 1024.
    pub periods: i64,
    /// How many nodes fall ill, from 0 to all.
    pub faulty: i64,
    /// The classes of their faults, at least one.
    pub classes: Classes,
    /// How likely a node that is well falls ill in a period, in 65,536ths, 0 to 65,536.
    pub rate: i64,
    /// For how many periods it is ill at most, 1 to 1024.
    pub length: i64,
    /// How many periods after the last of these it restarts, 0 to 1024; 0 for a node that never
    /// does.
    pub restart: i64,
    /// Whether a task runs in copies, whose results are voted on.
    pub copies: bool,
    /// The clocks, where there are some.
    pub clock: Option<ClockOptionParts>,
}

/// The option that is out of range: the first one, in this order.
#[derive(Clone, Copy)]
pub enum OptionsError {
    /// The number of nodes.
    Nodes,
    /// The number of relay rounds.
    Rounds,
    /// The number of periods.
    Periods,
    /// The number of nodes that fall ill.
    Faulty,
    /// The classes.
    Classes,
    /// The rate of illnesses.
    Rate,
    /// The length of an illness.
    Length,
    /// The periods up to a restart.
    Restart,
    /// The reading error of clocks.
    Epsilon,
    /// The drift of clocks.
    Drift,
    /// The starts of clocks.
    Start,
    /// The lies of clocks.
    Lie,
}

impl OptionsError {
    /// Its number in their order, from 0.
    pub fn place(self) -> u8
        ensures { result ≡ place_of self }
    {
        match self {
            OptionsError::Nodes => 0,
            OptionsError::Rounds => 1,
            OptionsError::Periods => 2,
            OptionsError::Faulty => 3,
            OptionsError::Classes => 4,
            OptionsError::Rate => 5,
            OptionsError::Length => 6,
            OptionsError::Restart => 7,
            OptionsError::Epsilon => 8,
            OptionsError::Drift => 9,
            OptionsError::Start => 10,
            OptionsError::Lie => 11,
        }
    }

    /// The option's name.
    fn name(self) -> &'static str {
        match self {
            OptionsError::Nodes => "nodes",
            OptionsError::Rounds => "m",
            OptionsError::Periods => "periods",
            OptionsError::Faulty => "faulty",
            OptionsError::Classes => "classes",
            OptionsError::Rate => "rate",
            OptionsError::Length => "length",
            OptionsError::Restart => "restart",
            OptionsError::Epsilon => "epsilon",
            OptionsError::Drift => "drift",
            OptionsError::Start => "start",
            OptionsError::Lie => "lie",
        }
    }
}

impl fmt::Display for OptionsError {
    fn fmt<W: fmt::Write>(&self, f: &mut fmt::Formatter<W>) -> fmt::Result {
        write!(f, "the option {} is out of range", self.name())
    }
}

// The same text.
impl fmt::Debug for OptionsError {
    fn fmt<W: fmt::Write>(&self, f: &mut fmt::Formatter<W>) -> fmt::Result {
        fmt::Display::fmt(self, f)
    }
}

impl Error for OptionsError {}
