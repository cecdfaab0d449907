//! A period of all nodes.

ghost use Rattle.std.specs.Prelude.{◌<◌};

use scenario::Scenario;

/// A period of a scenario.
#[derive(Drop)]
pub(crate) struct Period<'s, const N: usize> {
    /// The scenario.
    pub(crate) scenario: &'s Scenario<N>,
    /// The number of the period.
    pub(crate) number: u32,
    ghost in_run: { number < scenario.now.periods },
}
