//! Claims that were judged.

ghost use Rattle.std.specs.Prelude.{◌≡◌, ◌<◌, ◌≤◌, ◌==◌, ◌||◌, ◌&&◌, Some, None, if◌then◌else◌};
ghost use Rattle.std.specs.Prelude.{slice_index_or};
ghost use Rattle.node_grid.specs.Kinds.{claim, overrun};
ghost use Rattle.list_scheduler.specs.Schedule.{no_verdict};
ghost use Rattle.error_reports.specs.Notes.{also_noted};

use error_reports::RowBuilder;
use list_scheduler::Verdict;
use node_grid::kind::{CLAIM, OVERRUN};
use node_grid::{Capacity, Nodes};

/// Notes false claims and overruns by the verdict on each node, in this period's row.
pub fn note_verdicts<const N: usize>(notes: &mut RowBuilder<N>, verdicts: &[Verdict; N])
where
    Nodes: Capacity<N>,
    requires few { notes.old.kinds ≤ 16 }
    ensures { notes.new ≡ also_noted N notes.old
        (λ j k. ((slice_index_or verdicts.now j no_verdict).claim && k == claim) ||
        ((slice_index_or verdicts.now j no_verdict).overrun && k == overrun)) }
{
    notes.note_each(
        |j| -> Option<u8>
            requires { j < N }
            ensures { result ≡ (if (slice_index_or verdicts.entry.now j no_verdict).claim
                then Some claim else None) }
        { verdicts[j as usize].claim.then_some(CLAIM) },
    );
    notes.note_each(
        |j| -> Option<u8>
            requires { j < N }
            ensures { result ≡ (if (slice_index_or verdicts.entry.now j no_verdict).overrun
                then Some overrun else None) }
        { verdicts[j as usize].overrun.then_some(OVERRUN) },
    );
}
