//! What is drawn.
ghost use Rattle.std.specs.Prelude.{◌≡◌, ◌<◌, nat_lt, length, slice_index_or};
ghost use Rattle.drawn_scenarios.specs.Classes.{classes_of};
ghost use Rattle.drawn_scenarios.specs.declared.choices.FaultClass.TheVariants.{Asymmetric};

/// A class of faults.
#[derive(Clone, Copy)]
pub enum FaultClass {
    /// What a node does shows to all that it is faulty.
    Benign,
    /// It is wrong to all alike.
    Symmetric,
    /// It treats some otherwise than the rest.
    Asymmetric,
}

/// The classes of faults that a node which falls ill may have. It has one of them in all its
/// illnesses.
#[derive(Clone, Copy)]
pub struct Classes {
    /// Whether it may be benign.
    pub benign: bool,
    /// Whether it may be symmetric.
    pub symmetric: bool,
    /// Whether it may be asymmetric.
    pub asymmetric: bool,
}

impl Classes {
    /// How many there are.
    pub(crate) fn count(&self) -> u32
        ensures { result ≡ length (classes_of self.now) }
    {
        u32::from(self.benign) + u32::from(self.symmetric) + u32::from(self.asymmetric)
    }

    /// Whether there is one.
    pub(crate) fn has_some(&self) -> bool
        ensures { result ≡ nat_lt 0 (length (classes_of self.now)) }
    {
        self.benign || self.symmetric || self.asymmetric
    }

    /// The class at a place, from 0, in the order benign, symmetric, asymmetric.
    pub(crate) fn at(&self, place: u32) -> FaultClass
        requires { place < length (classes_of self.now) }
        ensures { result ≡ slice_index_or (classes_of self.now) place Asymmetric }
    {
        if self.benign && place == 0 {
            FaultClass::Benign
        } else if self.symmetric && place == u32::from(self.benign) {
            FaultClass::Symmetric
        } else {
            FaultClass::Asymmetric
        }
    }
}

/// The clocks of the nodes.
#[derive(Clone, Copy)]
pub struct ClockChoices {
    /// The greatest reading error, at most 2^20.
    pub epsilon: u32,
    /// How far two clocks drift apart in a period at most, at most 2^20.
    pub drift: u32,
    /// How far apart the clocks start at most, at most 2^40.
    pub start: u64,
    /// How much more or less a node that lies says of its clock at most, at most 2^40.
    pub lie: u64,
}

/// What is drawn.
#[derive(Clone, Copy)]
pub struct Choices {
    /// How many nodes the cluster has, 3 to 16.
    pub nodes: u8,
    /// How many relay rounds, 0 to 3, and fewer than nodes.
    pub m: u8,
    /// How many periods are run, 1 to 1024.
    pub periods: u32,
    /// How many nodes fall ill.
    pub faulty: u8,
    /// The classes of their faults.
    pub classes: Classes,
    /// How likely a node that is well falls ill in a period, in 65,536ths.
    pub rate: u32,
    /// For how many periods it is ill at most, 1 to 1024.
    pub length: u32,
    /// How many periods after the last of these it restarts, at most 1024; 0 for a node that never
    /// does.
    pub restart: u32,
    /// Whether a task runs in copies, whose results are voted on.
    pub copies: bool,
    /// The clocks, where there are some.
    pub clock: Option<ClockChoices>,
}
