/// The size of a plan.
#[derive(Clone, Copy)]
pub struct PlanSize {
    /// How many nodes there are.
    pub nodes: u8,
    /// The relay rounds, `m`.
    pub rounds: u8,
    /// How many periods there are.
    pub periods: u32,
}
