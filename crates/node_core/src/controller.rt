//! A node's controller: what the node knows.

ghost use Rattle.std.specs.Prelude.{◌≡◌, ◌≢◌, ◌<◌, true};
ghost use Rattle.protocol.specs.Run.{members_in};
ghost use Rattle.node_steps.specs.Steps.{restarted, given_frame};

mod claims;
mod data;
mod ending;
mod opening;
mod periods;
mod rows;
mod saying;
mod slots;
mod sync;

use crate::outcome::NodeRecord;
use agreed_state::{Agreed, Config, Inputs};
use arrayvec::ArrayVec;
use error_detect::{Rooms, SlotWatch};
use error_reports::RowBuilder;
use node_grid::{Capacity, NodeSet, Nodes, Row};
use omh_paths::Wrapped;
use relay_table::Table;
use slot_plan::Slot;
use std::marker::Model;

/// Where a node stands.
#[derive(Clone, Copy)]
pub struct Phase<const N: usize> {
    me: u8,
    period: u32,
    slot: Slot,
    is_open: bool,
    inputs: Inputs,
    // Whether it had an agreed state when the period began.
    full: bool,
    // The agreed state with which it goes through the period.
    before: Option<Agreed<N>>,
}

/// What a node keeps from one period to the next.
#[derive(Clone, Copy)]
pub struct Keeping<const N: usize> {
    state: Option<Agreed<N>>,
    notes: RowBuilder<N>,
    votes: [Option<i64>; 8],
    owns: [Option<i64>; 8],
}

/// What a node found so far in a period.
#[derive(Drop)]
pub struct Findings<const N: usize> {
    sync: NodeSet<N>,
    notes: RowBuilder<N>,
    claims: [Wrapped<u8>; N],
    due: ArrayVec<u8, 8>,
    own: [Option<i64>; 8],
    votes: [Option<i64>; 8],
}

/// What a node knows.
#[derive(Drop)]
pub struct Controller<'c, const N: usize> {
    config: &'c Config<N>,
    phase: Phase<N>,
    kept: Keeping<N>,
    done: Table<u8, N>,
    rows: Table<Row<N>, N>,
    found: Findings<N>,
    watch: SlotWatch<N>,
    outcome: NodeRecord<N>,
}

impl<'c, const N: usize> Model for Controller<'c, N> {
    ghost use Rattle.node_steps.specs.Parts.{NodeView};

    ghost Value = { NodeView N };

    ghost use Rattle.node_core.specs.Inside.{seen, IsController};

    ghost view = { seen };

    ghost invariant = { IsController };
}

impl<'c, const N: usize> Controller<'c, N> {
    /// Its number.
    pub fn me(&self) -> u8
        ensures { result ≡ self.now.phase.me }
    {
        self.phase.me
    }

    /// Whether a slot is open.
    pub fn is_open(&self) -> bool
        ensures { result ≡ self.now.phase.is_open }
    {
        self.phase.is_open
    }

    /// The record of the last period.
    pub fn record(&self) -> NodeRecord<N>
        ensures { result ≡ self.now.outcome }
    {
        self.outcome.copied()
    }

    /// Exchanges the room for frames that arrive with these.
    pub fn swap_rooms(&mut self, rooms: &mut Rooms)
        ensures { self.new ≡ self.old }
    {
        self.watch.swap_rooms(rooms);
    }

    /// A frame arrives in the open slot.
    pub fn deliver(&mut self, from: u8, tick: u8, bytes: &[u8])
    where
        Nodes: Capacity<N>,
        requires open { self.old.arrived.is_open ≡ true }
        requires node { from < self.old.config.nodes }
        requires other { from ≢ self.old.phase.me }
        ensures { self.new ≡ given_frame self.old from tick bytes.now }
    {
        self.watch.deliver(from, tick, bytes);
    }

    /// Forgets what it keeps from one period to the next.
    pub fn restart(&mut self)
    where
        Nodes: Capacity<N>,
        ensures { self.new ≡ restarted self.old }
    {
        self.kept.state = None;
        self.kept.notes.forget();
        self.kept.votes = [None; 8];
        self.kept.owns = [None; 8];
    }

    /// The members with which the node goes through the period.
    fn members(&self) -> NodeSet<N>
    where
        Nodes: Capacity<N>,
        ensures { result ≡ members_in self.now.phase.before }
    {
        match &self.phase.before {
            Some(agreed) => agreed.members,
            None => NodeSet::empty(),
        }
    }
}
