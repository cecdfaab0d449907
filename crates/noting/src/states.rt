//! What the sync slot says against a state.

ghost use Rattle.std.specs.Prelude.{◌≡◌, ◌≤◌, ◌==◌, ◌||◌, ◌&&◌, Some, None};
ghost use Rattle.std.specs.Prelude.{if◌then◌else◌};
ghost use Rattle.node_grid.specs.Kinds.{state};
ghost use Rattle.error_detect.specs.Watching.{findings, told_at};
ghost use Rattle.error_reports.specs.Notes.{also_noted};
ghost use Rattle.protocol.specs.Arrival.{arrived, is_bad, body_said};
ghost use Rattle.protocol.specs.View.{other_body};
ghost use Rattle.noting.specs.Findings.{has_of, IsSyncOf, IsOtherHeard};

use crate::findings::note_found;
use error_detect::{Finding, SlotWatch};
use error_reports::RowBuilder;
use frames::Body;
use node_grid::kind::STATE;
use node_grid::{Capacity, Nodes};

/// Whether another node tells another state than this in the closed sync slot.
fn tells_other<const N: usize>(watch: &SlotWatch<N>, own: &[u8], node: u8) -> bool
where
    Nodes: Capacity<N>,
    requires { IsOtherHeard N watch.now node }
    ensures { result ≡ other_body own.now (arrived body_said None (told_at watch.now node)) }
{
    let Some(frame) = watch.frame(node) else {
        return false;
    };
    match &frame.body {
        Body::State(bytes) => !(own == *bytes),
        Body::Done0(_) | Body::DoneRelay(_) | Body::Data(_) => false,
        Body::Report0(_) | Body::ReportRelay(_) | Body::Cold => false,
    }
}

/// Notes what was found of the frames of the closed sync slot, and the nodes whose state is another
/// one than the node's own, in this period's row. `own` is that state as a frame has it.
pub fn note_states<const N: usize>(
    notes: &mut RowBuilder<N>,
    watch: &SlotWatch<N>,
    found: &[Finding; N],
    own: &[u8],
)
where
    Nodes: Capacity<N>,
    requires few { notes.old.kinds ≤ 16 }
    requires sync { IsSyncOf notes.old.nodes notes.old.me watch.now }
    requires found { found.now ≡ findings N watch.now }
    ensures { notes.new ≡ also_noted N notes.old
        (λ j k. is_bad (has_of body_said watch.now j) k ||
        (other_body own.now (has_of body_said watch.now j) && k == state)) }
{
    note_found(notes, found);
    notes.note_each(
        |j| -> Option<u8>
            requires { IsOtherHeard N watch.now j }
            ensures { result ≡ (if other_body own.entry.now
                (arrived body_said None (told_at watch.entry.now j)) then Some state else None) }
        { tells_other(watch, own, j).then_some(STATE) },
    );
}
