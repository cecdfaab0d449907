//! What nodes keep from one period to the next beside their agreed states.

ghost use Rattle.std.specs.Prelude.{◌≡◌, ◌<◌, None, length, replicate};
ghost use Rattle.std.specs.Prelude.{slice_set};
ghost use Rattle.at_once.specs.Kept.{IsBlank, notes_at, no_longer};
ghost use Rattle.node_grid.specs.Version.{kind_count};

use crate::votes::Votes;
use error_reports::RowBuilder;
use node_grid::{Capacity, Nodes};
use scenario::Scenario;

/// What all nodes keep beside their agreed states, by node.
#[derive(Drop)]
pub(crate) struct Keeping<const N: usize> {
    /// What each notes against the others.
    pub(crate) notes: [RowBuilder<N>; N],
    /// Its last votes.
    pub(crate) votes: Votes<N>,
    /// Its last own values, by channel.
    pub(crate) owns: [[Option<i64>; 8]; N],
}

/// How many kinds of errors a row of the version has room for.
fn kinds_of(version: u8) -> u8
    ensures { result ≡ kind_count version }
{
    if version == 1 { 8 } else { 16 }
}

impl<const N: usize> Keeping<N>
where
    Nodes: Capacity<N>,
{
    /// What all nodes keep before the first period: nothing.
    pub(crate) fn open(scenario: &Scenario<N>) -> Keeping<N>
        ensures { IsBlank scenario.now.config result }
    {
        let config = scenario.config();
        let nodes = config.nodes;
        let kinds = kinds_of(config.version);
        let mut notes = [RowBuilder::new(nodes, 0, kinds); N];
        for me in 0..N as u8 {
            notes[me as usize] = RowBuilder::new(nodes, me, kinds);
        }
        Keeping {
            notes,
            votes: Votes::none(),
            owns: [[None; 8]; N],
        }
    }

    /// Forgets all that a node kept.
    pub(crate) fn forget(&mut self, i: u8)
        requires { i < N }
        ensures notes { self.new.notes ≡
            slice_set self.old.notes i (no_longer N (notes_at self.old.notes i)) }
        ensures votes { self.new.votes ≡ slice_set self.old.votes i (replicate 8 None) }
        ensures owns { self.new.owns ≡ slice_set self.old.owns i (replicate 8 None) }
        ensures many { length self.new.votes ≡ N }
    {
        self.notes[i as usize].forget();
        self.votes.forget(i);
        self.owns[i as usize] = [None; 8];
    }
}
