//! How many rounds of relaying there are.

ghost use Rattle.std.specs.Prelude.{◌≤◌};

/// A number of rounds of relaying, three at most.
#[derive(Clone, Copy)]
pub struct Rounds {
    /// The number.
    pub count: u8,
    pub ghost few: { count ≤ 3 },
}

/// No round.
pub const NONE: Rounds = Rounds { count: 0 };

/// One round.
pub const ONE: Rounds = Rounds { count: 1 };

/// Two rounds.
pub const TWO: Rounds = Rounds { count: 2 };

/// Three rounds.
pub const THREE: Rounds = Rounds { count: 3 };
