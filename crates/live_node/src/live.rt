//! A node that is told one line after another.

ghost use Rattle.std.specs.Prelude.{◌≡◌, ◌<◌, ◌≤◌, IfOk, length};
ghost use Rattle.live_node.specs.Live.{line_step, is_open, IsNewLive};
ghost use Rattle.live_node.specs.Taking.{Takes};

use crate::event::event_of;
use crate::event_node::EventNode;
use node_grid::{Capacity, NoMemory, Nodes};
use scenario::Scenario;
use span_io::Sink;
use std::alloc::Global;
use std::marker::Model;
use thiserror::Error;

/// Why a line was not taken, or not answered.
#[derive(Clone, Copy, Debug, PartialEq, Eq, Error)]
pub enum Refusal {
    /// It tells no event of this cluster.
    #[error("the line is no event of this cluster")]
    Unknown,
    /// It tells an event that may not come now.
    #[error("the event is not allowed now")]
    NotNow,
    /// It was taken, and a prefix of the answer was written.
    #[error("the output could not be written")]
    WriteFault,
}

/// A node that is told one event after another, by lines of text, and answers with text.
///
/// Contracts see the scenario and the node's number, the node, which period begins next, how many
/// were run, and what was told for the next period and of other clocks.
#[derive(Drop)]
pub struct Live<'s, const N: usize> {
    node: EventNode<'s, N>,
    /// Room for the bytes of a frame that arrives.
    arrived: Vec<u8>,
}

impl<'s, const N: usize> Model for Live<'s, N> {
    ghost use Rattle.std.specs.Prelude.{◌≤◌, ◌+◌, ◌*◌, length};
    ghost use Rattle.live_node.specs.Live.{LiveView};

    ghost Value = { LiveView N };

    ghost view = { λ l. l.node };

    ghost invariant = { λ l. l.node.longest ≤ 2 * length l.arrived.items + 1 };
}

impl<'s, const N: usize> Live<'s, N>
where
    Nodes: Capacity<N>,
{
    /// Node `id` of the scenario, below its number of nodes, before it was told anything; for lines
    /// of at most `longest` bytes. No other call takes memory.
    ///
    /// # Errors
    ///
    /// `NoMemory` where its tables and rooms can't be had.
    pub fn open(
        alloc: Global,
        scenario: &'s Scenario<N>,
        id: u8,
        longest: usize,
    ) -> Result<Live<'s, N>, NoMemory>
        requires id { id < scenario.now.config.nodes }
        ensures fresh { IfOk result (λ l. IsNewLive scenario.now id l) }
        ensures longest { IfOk result (λ l. l.longest ≡ longest) }
    {
        let Ok(arrived) = vec![in alloc; 0u8; longest / 2] else {
            return Err(NoMemory);
        };
        let node = EventNode::open(alloc, scenario, id, longest)?;
        Ok(Live { node, arrived })
    }

    /// How many periods were run.
    pub fn periods_run(&self) -> u64
        ensures { result ≡ self.now.run }
    {
        self.node.periods_run()
    }

    /// Whether a slot is open.
    pub fn is_open(&self) -> bool
        ensures { result ≡ is_open self.now }
    {
        self.node.is_open()
    }

    /// Takes a line, without its line feed, and writes the answer.
    ///
    /// # Errors
    ///
    /// - `Unknown` and `NotNow`: nothing was written, and the node is as before.
    /// - `WriteFault` comes only where the sink's count of faults rose. The line was taken, and a
    ///   prefix of the answer was written then.
    pub fn take<K: Sink>(&mut self, line: &[u8], sink: &mut K) -> Result<(), Refusal>
        requires short { length line.now ≤ self.old.longest }
        ensures { Takes K.written K.faults self.old sink.old self.new sink.new
            (line_step self.old line.now) result }
    {
        let Some(event) = event_of(line, self.arrived.as_mut_slice()) else {
            return Err(Refusal::Unknown);
        };
        if !self.node.is_of_cluster(event) {
            return Err(Refusal::Unknown);
        }
        if !self.node.allows(event) {
            return Err(Refusal::NotNow);
        }
        self.node.tell(event, self.arrived.as_slice());
        match self.node.answer(event, sink) {
            Ok(()) => Ok(()),
            Err(_) => Err(Refusal::WriteFault),
        }
    }
}
