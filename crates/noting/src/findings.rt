//! What was found of the frames of a slot.

ghost use Rattle.std.specs.Prelude.{◌≡◌, ◌<◌, ◌≤◌, ◌==◌, ◌||◌, ◌&&◌, not, slice_index_or};
ghost use Rattle.node_grid.specs.Kinds.{deviate};
ghost use Rattle.node_grid.specs.NodeSet.{has_id, ids_where};
ghost use Rattle.error_detect.specs.declared.finding.Finding.TheVariants.{Good};
ghost use Rattle.error_detect.specs.Finding.{is_good_at, kind_of};
ghost use Rattle.error_reports.specs.Notes.{also_noted, also_carried};
ghost use Rattle.noting.specs.Findings.{found_bad};

use error_detect::Finding;
use error_reports::RowBuilder;
use node_grid::kind::{COLD, DEVIATE, MALFORMED, MISSING, TIMING};
use node_grid::{Capacity, NodeSet, Nodes};

/// The kind of error that a finding is, if it is one.
fn kind_of(found: Finding) -> Option<u8>
    ensures { result ≡ kind_of found }
{
    match found {
        Finding::Good => None,
        Finding::Missing => Some(MISSING),
        Finding::Malformed => Some(MALFORMED),
        Finding::Timing => Some(TIMING),
        Finding::Cold => Some(COLD),
    }
}

/// Notes what was found of the frames of a slot, in this period's row. `found` has a finding for
/// each node.
pub fn note_found<const N: usize>(notes: &mut RowBuilder<N>, found: &[Finding; N])
where
    Nodes: Capacity<N>,
    ensures { notes.new ≡ also_noted N notes.old (found_bad found.now) }
{
    notes.note_each(
        |j| -> Option<u8>
            requires { j < N }
            ensures { result ≡ kind_of (slice_index_or found.entry.now j Good) }
        { kind_of(found[j as usize]) },
    );
}

/// The same for the next period's row.
pub fn carry_found<const N: usize>(notes: &mut RowBuilder<N>, found: &[Finding; N])
where
    Nodes: Capacity<N>,
    ensures { notes.new ≡ also_carried N notes.old (found_bad found.now) }
{
    notes.carry_each(
        |j| -> Option<u8>
            requires { j < N }
            ensures { result ≡ kind_of (slice_index_or found.entry.now j Good) }
        { kind_of(found[j as usize]) },
    );
}

/// Notes what was found of the frames of the data slot, and the nodes of which a value is too far
/// from the vote, in this period's row.
pub fn note_values<const N: usize>(
    notes: &mut RowBuilder<N>,
    found: &[Finding; N],
    off: &NodeSet<N>,
)
where
    Nodes: Capacity<N>,
    requires few { notes.old.kinds ≤ 16 }
    ensures { notes.new ≡ also_noted N notes.old
        (λ j k. found_bad found.now j k || (has_id off.now j && k == deviate)) }
{
    note_found(notes, found);
    notes.note_all(off, DEVIATE);
}

/// Whether this is another node than `me`, and its frame was found Good.
#[tactic(auto, using(crate::specs::FoundLaws::good_by))]
fn is_good_sender<const N: usize>(found: &[Finding; N], me: u8, node: u8) -> bool
    requires { node < N }
    ensures { result ≡ (not (node == me) && is_good_at found.now node) }
{
    node != me && kind_of(found[node as usize]).is_none()
}

/// The nodes below `nodes` other than `me` whose frames were found Good.
#[tactic(auto, using(node_grid::specs::NodeSetLaws::id_loops))]
pub fn good_senders<const N: usize>(found: &[Finding; N], me: u8, nodes: u8) -> NodeSet<N>
where
    Nodes: Capacity<N>,
    requires few { nodes ≤ N }
    ensures { result ≡ ids_where (λ j. not (j == me) && is_good_at found.now j) nodes }
{
    let mut good = NodeSet::empty();
    for node in 0..nodes {
        if is_good_sender(found, me, node) {
            good.put(node);
        }
    }
    good
}
