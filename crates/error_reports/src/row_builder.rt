ghost use Rattle.std.specs.Prelude.{◌≡◌, ◌≢◌, ℕ, ◌-◌, ◌^◌, ◌<◌, ◌≤◌, ◌==◌, ◌||◌};
ghost use Rattle.std.specs.Prelude.{Option, None, Some, if◌then◌else◌, replicate};
ghost use Rattle.std.specs.Int.{bit_at};
ghost use Rattle.node_grid.specs.NodeSet.{ids_where, mask_of, has_id};
ghost use Rattle.error_reports.specs.Notes.{with_kind, noted_besides, is_kind, of_each};
ghost use Rattle.error_reports.specs.Notes.{also_noted, also_carried, GivesKinds};

use node_grid::{Capacity, NodeSet, Nodes, Row};
use std::marker::Model;

/// What one node notes against the others, in this period and for the next one.
///
/// What a node finds in a period's report slots comes too late for the row that it has sent by
/// then: it is carried over to the next period's row.
#[derive(Clone, Copy)]
pub struct RowBuilder<const N: usize> {
    nodes: u8,
    me: u8,
    kinds: u8,
    row: Row<N>,
    carried: Row<N>,
}

// Clauses see both rows, and whose they are.
impl<const N: usize> Model for RowBuilder<N> {
    ghost use Rattle.error_reports.specs.Notes.{Notes, AreNotes};

    ghost Value = { Notes };

    ghost view = { λ b. record {
      nodes = b.nodes;
      me = b.me;
      kinds = b.kinds;
      row = b.row;
      carried = b.carried;
    } };

    ghost invariant = { λ b. AreNotes N (record {
      nodes = b.nodes;
      me = b.me;
      kinds = b.kinds;
      row = b.row;
      carried = b.carried;
    }) };

    ghost inverse = { λ n. record {
      nodes = n.nodes;
      me = n.me;
      kinds = n.kinds;
      row = n.row;
      carried = n.carried;
    } };
}

/// This kind, where it is so.
fn kind_where(is_so: bool, kind: u8) -> Option<u8>
    ensures { result ≡ (if is_so then Some kind else None) }
{
    if is_so { Some(kind) } else { None }
}

/// The mask of all kinds below `kinds`.
fn all_kinds(kinds: u8) -> u16
    requires { kinds ≤ 16 }
    ensures { result ≡ 2 ^ kinds - 1 }
{
    ((1u32 << kinds) - 1) as u16
}

/// The mask of this kind, where there is one below `kinds`.
fn bit_of(kind: Option<u8>, kinds: u8) -> u16
    requires { kinds ≤ 16 }
    ensures { (k : ℕ) → k < kinds → (bit_at result k == 1) ≡ is_kind kind k }
{
    match kind {
        Some(kind) => { if kind < kinds { 1 << kind } else { 0 } }
        None => 0,
    }
}

/// A mask of kinds below `kinds`, with this kind besides.
fn joined(mask: u16, kind: Option<u8>, kinds: u8) -> u16
    requires { kinds ≤ 16 }
    ensures { result ≡ mask_of (ids_where (λ k. (bit_at mask k == 1) || is_kind kind k) kinds) }
{
    (mask | bit_of(kind, kinds)) & all_kinds(kinds)
}

/// What a row says of the nodes other than `me`, and besides the kind of error that `kind_of` gives
/// of each.
fn besides<const N: usize, F: Fn(u8) -> Option<u8>>(
    row: &Row<N>,
    nodes: u8,
    me: u8,
    kinds: u8,
    kind_of: F,
) -> Row<N>
where
    Nodes: Capacity<N>,
    requires nodes { nodes ≤ N }
    requires kinds { kinds ≤ 16 }
    requires callable { (j : ℕ) → j < N → j < nodes → j ≢ me → F.pre kind_of j }
    ensures { (gives : ℕ → Option ℕ) → GivesKinds (F.post kind_of) N nodes me gives →
        result ≡ noted_besides N kinds nodes me row.now (λ j k. is_kind (gives j) k) }
{
    let mut masks = [0; N];
    for j in 0..nodes {
        if j != me {
            masks[j as usize] = joined(row.masks[j as usize], kind_of(j), kinds);
        }
    }
    Row { masks }
}

impl<const N: usize> RowBuilder<N> {
    /// Node `me` of so many nodes notes nothing yet. A row has room for kinds below `kinds`: 8 in
    /// version 1, and 16 in version 2.
    pub fn new(nodes: u8, me: u8, kinds: u8) -> Self
    where
        Nodes: Capacity<N>,
        requires nodes { nodes ≤ N }
        requires kinds { kinds ≤ 16 }
        ensures { result ≡ record {
          nodes = nodes;
          me = me;
          kinds = kinds;
          row = replicate N 0;
          carried = replicate N 0;
        } }
    {
        RowBuilder {
            nodes,
            me,
            kinds,
            row: Row::zero(),
            carried: Row::zero(),
        }
    }

    /// Notes an error of this kind of `node`, in this period's row. `node_grid::kind` names the
    /// kinds.
    pub fn note(&mut self, node: u8, kind: u8)
        requires node { node < self.old.nodes }
        requires kind { kind < self.old.kinds }
        ensures { self.new ≡ record self.old { row = with_kind self.old.row node kind } }
    {
        // Proofs need here that there are few kinds.
        let _ = &self.kinds;
        self.row.masks[node as usize] |= 1 << kind;
    }

    /// Notes an error of this kind of `node`, for the next period's row.
    pub fn carry(&mut self, node: u8, kind: u8)
        requires node { node < self.old.nodes }
        requires kind { kind < self.old.kinds }
        ensures { self.new ≡ record self.old { carried = with_kind self.old.carried node kind } }
    {
        // Proofs need here that there are few kinds.
        let _ = &self.kinds;
        self.carried.masks[node as usize] |= 1 << kind;
    }

    /// Notes of each other node in use the kind of error that `kind_of` gives, if any, in this
    /// period's row. A kind that a row has no room for is left out.
    pub fn note_each<F: Fn(u8) -> Option<u8>>(&mut self, kind_of: F)
    where
        Nodes: Capacity<N>,
        requires { (j : ℕ) → j < N → j < self.old.nodes → j ≢ self.old.me → F.pre kind_of j }
        ensures kept { self.new ≡ record self.old { row = self.new.row } }
        ensures row { (gives : ℕ → Option ℕ) →
            GivesKinds (F.post kind_of) N self.old.nodes self.old.me gives →
            self.new ≡ also_noted N self.old (λ j k. is_kind (gives j) k) }
    {
        self.row = besides(&self.row, self.nodes, self.me, self.kinds, kind_of);
    }

    /// The same for the next period's row.
    pub fn carry_each<F: Fn(u8) -> Option<u8>>(&mut self, kind_of: F)
    where
        Nodes: Capacity<N>,
        requires { (j : ℕ) → j < N → j < self.old.nodes → j ≢ self.old.me → F.pre kind_of j }
        ensures kept { self.new ≡ record self.old { carried = self.new.carried } }
        ensures row { (gives : ℕ → Option ℕ) →
            GivesKinds (F.post kind_of) N self.old.nodes self.old.me gives →
            self.new ≡ also_carried N self.old (λ j k. is_kind (gives j) k) }
    {
        self.carried = besides(&self.carried, self.nodes, self.me, self.kinds, kind_of);
    }

    /// Notes an error of this kind of each other node in use that is in the set, in this period's
    /// row. A kind that a row has no room for is left out.
    pub fn note_all(&mut self, accused: &NodeSet<N>, kind: u8)
    where
        Nodes: Capacity<N>,
        ensures { self.new ≡ also_noted N self.old (of_each accused.now kind) }
    {
        self.note_each(
            |j| -> Option<u8>
                ensures { result ≡ (if has_id accused.entry.now j then Some kind else None) }
            { kind_where(accused.has(j), kind) },
        );
    }

    /// The same for the next period's row.
    pub fn carry_all(&mut self, accused: &NodeSet<N>, kind: u8)
    where
        Nodes: Capacity<N>,
        ensures { self.new ≡ also_carried N self.old (of_each accused.now kind) }
    {
        self.carry_each(
            |j| -> Option<u8>
                ensures { result ≡ (if has_id accused.entry.now j then Some kind else None) }
            { kind_where(accused.has(j), kind) },
        );
    }

    /// This period's row.
    pub fn row(&self) -> Row<N>
        ensures { result ≡ self.now.row }
    {
        self.row
    }

    /// What is carried over to the next period's row.
    pub fn carried(&self) -> Row<N>
        ensures { result ≡ self.now.carried }
    {
        self.carried
    }

    /// Accuses nobody in this period's row, as a node does that isn't a full member yet.
    pub fn accuse_nobody(&mut self)
    where
        Nodes: Capacity<N>,
        ensures { self.new ≡ record self.old { row = replicate N 0 } }
    {
        // Proofs need here that there is room for N masks.
        let _ = &self.kinds;
        self.row = Row::zero();
    }

    /// Begins the next period: its row is what was carried over, and nothing is carried from there
    /// on.
    pub fn next_period(&mut self)
    where
        Nodes: Capacity<N>,
        ensures { self.new ≡ record self.old { row = self.old.carried; carried = replicate N 0 } }
    {
        self.row = self.carried;
        self.carried = Row::zero();
    }

    /// Forgets all that was noted, as a node does that restarts.
    pub fn forget(&mut self)
    where
        Nodes: Capacity<N>,
        ensures { self.new ≡ record self.old { row = replicate N 0; carried = replicate N 0 } }
    {
        *self = RowBuilder::new(self.nodes, self.me, self.kinds);
    }
}
