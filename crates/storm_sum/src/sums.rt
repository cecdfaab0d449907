//! Sums over the periods of a run.
ghost use Rattle.std.specs.Prelude.{◌≡◌, ◌+◌, ◌*◌, ◌<◌, ◌≤◌, ◌&&◌, ℕ, Some, not, replicate};
ghost use Rattle.node_grid.specs.NodeSet.{has_id};
ghost use Rattle.node_grid.specs.Count.{bit};
ghost use Rattle.protocol.specs.Run.{members_in};
ghost use Rattle.scenario.specs.Scenario.{system_of};
ghost use Rattle.shown_period.specs.Whole.{record_of};
ghost use Rattle.storm_sum.specs.Summary.{lost, state_after, excluded, readmitted, counts_in};
ghost use Rattle.storm_sum.specs.Summing.{AreSums};

use at_once::Run;
use node_grid::NodeSet;
use penalty::Counts;
use shown_period::Shown;

/// What is summed up of the periods that were run, and what the last of them leaves.
#[derive(Clone, Copy)]
pub struct Sums {
    /// How many periods are claimed.
    pub claimed: u32,
    /// How often a node left the reference node's members.
    pub excluded: u32,
    /// How often a node joined them.
    pub readmitted: u32,
    /// The members after the last period.
    pub members: NodeSet<8>,
    /// The penalty counts after the last period.
    pub counts: Counts<8>,
}

/// What the agreed state of the reference node is after the period: its members and counts, none
/// and 0 without a state.
fn state_after(shown: &Shown<8>) -> (NodeSet<8>, Counts<8>)
    requires { (r : ℕ) → shown.now.head.reference ≡ Some r → r < shown.now.head.nodes }
    ensures members { result.0 ≡ members_in (state_after (record_of shown.now)) }
    ensures counts { result.1.counts ≡ counts_in (state_after (record_of shown.now)) }
{
    let Some(node) = shown.head.reference else {
        return (NodeSet::empty(), Counts::zero());
    };
    match shown.agreed(node) {
        None => (NodeSet::empty(), Counts::zero()),
        Some(agreed) => (agreed.members, agreed.counts),
    }
}

/// Whether the node is in the first set and not in the second.
fn is_lost(before: &NodeSet<8>, after: &NodeSet<8>, node: u8) -> bool
    ensures { result ≡ (has_id before.now node && not (has_id after.now node)) }
{
    before.has(node) && !after.has(node)
}

/// How many of the nodes are in the first set and not in the second.
fn lost(nodes: u8, before: &NodeSet<8>, after: &NodeSet<8>) -> u32
    requires { nodes ≤ 8 }
    ensures count { result ≡ lost nodes before.now after.now }
    ensures few { result ≤ 8 }
{
    let mut lost = 0;
    for node in 0..nodes {
        if is_lost(before, after, node) {
            lost += 1;
        }
    }
    lost
}

impl Sums {
    /// Nothing yet.
    pub fn none() -> Self
        ensures claimed { result.claimed ≡ 0 }
        ensures excluded { result.excluded ≡ 0 }
        ensures readmitted { result.readmitted ≡ 0 }
    {
        Sums {
            claimed: 0,
            excluded: 0,
            readmitted: 0,
            members: NodeSet::empty(),
            counts: Counts::zero(),
        }
    }

    /// Adds a period.
    fn add(&mut self, shown: &Shown<8>)
        requires nodes { shown.now.head.nodes ≤ 8 }
        requires reference { (r : ℕ) → shown.now.head.reference ≡ Some r → r
            < shown.now.head.nodes }
        requires few_claimed { self.old.claimed ≤ 1024 }
        requires few_excluded { self.old.excluded ≤ 8192 }
        requires few_readmitted { self.old.readmitted ≤ 8192 }
        ensures claimed { self.new.claimed ≡ self.old.claimed + bit shown.now.head.claim }
        ensures excluded { self.new.excluded ≡ self.old.excluded + excluded (record_of shown.now) }
        ensures readmitted { self.new.readmitted
            ≡ self.old.readmitted + readmitted (record_of shown.now) }
        ensures few_excluded { self.new.excluded ≤ self.old.excluded + 8 }
        ensures few_readmitted { self.new.readmitted ≤ self.old.readmitted + 8 }
        ensures members { self.new.members ≡ members_in (state_after (record_of shown.now)) }
        ensures counts { self.new.counts.counts ≡ counts_in (state_after (record_of shown.now)) }
    {
        let head = &shown.head;
        let (members, counts) = state_after(shown);
        if head.claim {
            self.claimed += 1;
        }
        self.excluded += lost(head.nodes, &head.members, &members);
        self.readmitted += lost(head.nodes, &members, &head.members);
        self.members = members;
        self.counts = counts;
    }

    /// Runs the next period, and adds it.
    pub fn add_next(&mut self, run: &mut Run<'_, 8>)
        requires more { run.old.run < run.old.scenario.periods }
        requires few { run.old.run < 1024 }
        requires nodes { run.old.scenario.config.nodes ≤ 8 }
        requires sums { AreSums (system_of run.old.scenario) run.old.run self.old }
        ensures ran { run.new ≡ record run.old { run = run.old.run + 1 } }
        ensures sums { AreSums (system_of run.old.scenario) (run.old.run + 1) self.new }
    {
        let shown = run.period();
        self.add(shown);
    }

    /// The sums over the first so many periods of a run that wasn't begun.
    pub fn of_first(run: &mut Run<'_, 8>, periods: u32) -> Sums
        requires first { run.old.run ≡ 0 }
        requires within { periods ≤ run.old.scenario.periods }
        requires few { periods ≤ 1024 }
        requires nodes { run.old.scenario.config.nodes ≤ 8 }
        ensures { AreSums (system_of run.old.scenario) periods result }
    {
        let mut sums = Sums::none();
        for _period in 0..periods {
            sums.add_next(run);
        }
        sums
    }
}
