ghost use Rattle.std.specs.Prelude.{◌≡◌, ℕ, ◌<◌, IsTrue, Some, None, if◌then◌else◌};
ghost use Rattle.error_reports.specs.Charge.{charged, charged_mask, is_voter, is_accuser};

use node_grid::{Capacity, Matrix, NodeSet, Nodes};

/// How many kinds a mask has room for.
const KIND_ROOM: u8 = 16;

/// The mask of the kinds that `node` is charged with, by the settled `rows` of the other `members`.
///
/// A row counts where it is there, stands for a member, and isn't the node's own. The node is
/// charged with each kind that more than half of the rows that count give it; where no row counts,
/// with nothing. Whether `node` is a member makes no difference.
pub fn charged<const N: usize>(rows: &Matrix<N>, members: &NodeSet<N>, node: u8) -> u16
where
    Nodes: Capacity<N>,
    requires in_range { node < N }
    ensures { result ≡ charged_mask rows.now members.now node }
{
    let mut mask = 0;
    for kind in 0..KIND_ROOM {
        if is_charged(rows, members, node, kind) {
            mask |= 1 << kind;
        }
    }
    mask
}

/// Whether the row of `member` accuses `node` of this kind, where it counts.
fn accusation<const N: usize>(rows: &Matrix<N>, member: u8, node: u8, kind: u8) -> Option<bool>
where
    Nodes: Capacity<N>,
    requires in_range { node < N }
    requires kind { kind < 16 }
    ensures { result ≡ (if is_voter rows.now node member
        then Some (is_accuser rows.now node kind member) else None) }
{
    if member == node {
        return None;
    }
    let Some(row) = rows.get(member) else {
        return None;
    };
    Some((row.masks[node as usize] >> kind) & 1 == 1)
}

/// Whether more than half of the rows that count give `node` this kind.
fn is_charged<const N: usize>(rows: &Matrix<N>, members: &NodeSet<N>, node: u8, kind: u8) -> bool
where
    Nodes: Capacity<N>,
    requires in_range { node < N }
    requires kind { kind < 16 }
    ensures { result ≡ charged rows.now members.now node kind }
{
    let mut voters: u8 = 0;
    let mut accusers: u8 = 0;
    for member in members.iter() {
        if let Some(accuses) = accusation(rows, member, node, kind) {
            voters += 1;
            accusers += u8::from(accuses);
        }
    }
    2 * accusers > voters
}
