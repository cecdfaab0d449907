//! A node before its first period.

ghost use Rattle.std.specs.Prelude.{◌≡◌, ◌<◌, ◌≤◌, IfOk};
ghost use Rattle.node_grid.specs.Version.{kind_count};
ghost use Rattle.frames.specs.Bound.{IsGreatest};
ghost use Rattle.error_detect.specs.Watching.{fresh};
ghost use Rattle.agreed_state.specs.Body.{state_len};
ghost use Rattle.agreed_state.specs.Config.{IsConfig};
ghost use Rattle.node_steps.specs.Fresh.{newly_open};
ghost use Rattle.node_core.specs.Inside.{found_of, none_found, IsPlace, AreUnused};

use super::{Controller, Findings, Keeping, Phase};
use crate::outcome::NodeRecord;
use agreed_state::{Agreed, Config, Inputs};
use arrayvec::ArrayVec;
use error_detect::SlotWatch;
use error_reports::RowBuilder;
use node_grid::{Capacity, NoMemory, NodeSet, Nodes, Row};
use omh_paths::Wrapped;
use relay_table::Table;
use slot_plan::Slot;
use std::alloc::Global;

/// How many kinds of error a row of this version has room for.
fn kind_count(version: u8) -> u8
    ensures count { result ≡ kind_count version }
    ensures few { result ≤ 16 }
{
    if version == 1 { 8 } else { 16 }
}

impl<const N: usize> Findings<N>
where
    Nodes: Capacity<N>,
{
    /// Nothing is found yet in a period that begins with these notes.
    pub(super) fn none(notes: RowBuilder<N>) -> Findings<N>
        ensures found { found_of result ≡ none_found N notes.entry }
        ensures notes { result.notes ≡ notes.entry }
    {
        Findings {
            sync: NodeSet::empty(),
            notes,
            claims: [Wrapped::Fault(0); N],
            due: ArrayVec::new(),
            own: [None; 8],
            votes: [None; 8],
        }
    }
}

impl<'c, const N: usize> Controller<'c, N>
where
    Nodes: Capacity<N>,
{
    /// Node `me` before the first period, with room for frames of `frame_max` bytes. No other call
    /// takes memory.
    ///
    /// # Errors
    ///
    /// `NoMemory` where its tables can't be had.
    pub fn open(
        alloc: Global,
        config: &'c Config<N>,
        me: u8,
        frame_max: usize,
    ) -> Result<Controller<'c, N>, NoMemory>
        requires config { IsConfig N config.now }
        requires me { me < config.now.nodes }
        requires greatest { IsGreatest config.now.nodes config.now.m (state_len config.now) 8
            frame_max }
        ensures { IfOk result (λ p. p ≡ newly_open config.now me frame_max) }
    {
        let done = Table::open(alloc, config.nodes, config.m)?;
        let rows = Table::open(alloc, config.nodes, config.m)?;
        let watch = SlotWatch::open(alloc, config.nodes, me, frame_max)?;
        Ok(Controller::before_first(config, me, done, rows, watch))
    }

    /// Node `me` before the first period, with these tables, of which none was used yet.
    fn before_first(
        config: &'c Config<N>,
        me: u8,
        done: Table<u8, N>,
        rows: Table<Row<N>, N>,
        watch: SlotWatch<N>,
    ) -> Controller<'c, N>
        requires place { IsPlace N config.now me }
        requires unused { AreUnused config.now done rows }
        requires watch { watch ≡ fresh config.now.nodes me watch.frame_max }
        requires greatest { IsGreatest config.now.nodes config.now.m (state_len config.now) 8
            watch.frame_max }
        ensures { result ≡ newly_open config.now me watch.entry.frame_max }
    {
        let notes = RowBuilder::new(config.nodes, me, kind_count(config.version));
        Controller {
            config,
            phase: Phase {
                me,
                period: 0,
                slot: Slot::Sync,
                is_open: false,
                inputs: Inputs {
                    run: [0; 32],
                    reading: [0; 8],
                },
                full: true,
                before: None,
            },
            kept: Keeping {
                state: Some(Agreed::first(config)),
                notes,
                votes: [None; 8],
                owns: [None; 8],
            },
            done,
            rows,
            found: Findings::none(notes),
            watch,
            outcome: NodeRecord::cold(),
        }
    }
}
