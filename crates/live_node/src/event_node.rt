//! A node that is told events.

ghost use Rattle.std.specs.Prelude.{◌≡◌, ◌+◌, ◌*◌, ◌<◌, ◌≤◌, ℕ, None, true, false, List};
ghost use Rattle.std.specs.Prelude.{All, IfOk, length, replicate, unwrap_or};
ghost use Rattle.frames.specs.Content.{IsValue};
ghost use Rattle.node_steps.specs.Steps.{after_slot, frame_of};
ghost use Rattle.span_io.specs.Causes.{Writes};
ghost use Rattle.live_node.specs.Live.{is_of_cluster, is_other, may_begin, allowed, is_open};
ghost use Rattle.live_node.specs.Live.{period_begun, slot_ended, told, inputs_given};
ghost use Rattle.live_node.specs.Live.{correction, period_answer, answer, replaced, IsNewLive};
ghost use Rattle.live_node.specs.Seen.{event_in, FitsIn, IsAnswered};
ghost use Rattle.live_node.specs.Standing.{IsLive};
ghost use Rattle.live_node.specs.Text.{say_text, correct_text};

use crate::correcting::correction_by;
use crate::event::Event;
use crate::text::{AROUND, spell_correct, spell_say, write};
use agreed_state::{Agreed, Inputs};
use frames::frame_bound;
use node_core::{Node, NodeRecord};
use node_grid::{Capacity, NoMemory, Nodes};
use run_print::{WriteFault, write_alone};
use scenario::Scenario;
use slot_plan::slot_count;
use span_io::Sink;
use std::alloc::Global;
use std::marker::Model;

/// What a node was told of channels and clocks.
#[derive(Drop)]
struct Told<const N: usize> {
    /// By channel: what the node reads in the next period in place of its scenario's reading.
    given: [Option<i64>; 8],
    /// By node: how far its clock is ahead in this period.
    ahead: [Option<i64>; N],
}

impl<const N: usize> Told<N> {
    /// Nothing.
    fn nothing() -> Told<N>
        ensures given { result.given ≡ replicate 8 None }
        ensures ahead { result.ahead ≡ replicate N None }
    {
        Told {
            given: [None; 8],
            ahead: [None; N],
        }
    }
}

/// A node that is told one event after another.
#[derive(Drop)]
pub(crate) struct EventNode<'s, const N: usize> {
    scenario: &'s Scenario<N>,
    id: u8,
    node: Node<'s, N>,
    /// The period that begins next, and how many were run.
    next: u64,
    run: u64,
    /// Whether the node has forgotten all since its last period.
    forgot: bool,
    /// The slot that is open.
    slot: Option<u8>,
    told: Told<N>,
    /// How many bytes a line may have.
    longest: usize,
    /// Room for a frame that it sends, and for a line.
    frame: Vec<u8>,
    text: Vec<u8>,
}

impl<'s, const N: usize> Model for EventNode<'s, N> {
    ghost use Rattle.std.specs.Prelude.{vec_capacity};
    ghost use Rattle.live_node.specs.Live.{LiveView};
    ghost use Rattle.live_node.specs.Standing.{IsHeld};

    ghost Value = { LiveView N };

    ghost view = { λ n. record {
      scenario = n.scenario.now;
      id = n.id;
      node = n.node;
      next = n.next;
      run = n.run;
      forgot = n.forgot;
      given = n.told.given;
      ahead = n.told.ahead;
      longest = n.longest;
    } };

    ghost invariant = { λ n. IsHeld (record {
      scenario = n.scenario.now;
      id = n.id;
      node = n.node;
      next = n.next;
      run = n.run;
      forgot = n.forgot;
      given = n.told.given;
      ahead = n.told.ahead;
      longest = n.longest;
    }) n.slot (vec_capacity n.frame) (vec_capacity n.text) };
}

/// Puts each reading that was told in its place.
fn replace(readings: &mut [i64; 8], given: &[Option<i64>; 8])
    ensures { readings.new ≡ replaced given.now readings.old }
{
    for channel in 0..8 {
        if let Some(value) = given[channel] {
            readings[channel] = value;
        }
    }
}

impl<'s, const N: usize> EventNode<'s, N> {
    /// Node `id` of the scenario before it was told anything. All memory is taken here.
    ///
    /// # Errors
    ///
    /// `NoMemory` where there is none.
    pub(crate) fn open(
        alloc: Global,
        scenario: &'s Scenario<N>,
        id: u8,
        longest: usize,
    ) -> Result<EventNode<'s, N>, NoMemory>
    where
        Nodes: Capacity<N>,
        requires id { id < scenario.now.config.nodes }
        ensures fresh { IfOk result (λ n. IsNewLive scenario.now id n) }
        ensures longest { IfOk result (λ n. n.longest ≡ longest) }
    {
        let config = scenario.config();
        let room = frame_bound(config.nodes, config.m, Agreed::state_len(config), 8);
        let Ok(frame) = Vec::with_capacity(alloc, room) else {
            return Err(NoMemory);
        };
        let Ok(text) = Vec::with_capacity(alloc, 2 * room + AROUND) else {
            return Err(NoMemory);
        };
        let node = Node::open(alloc, config, id)?;
        Ok(EventNode {
            scenario,
            id,
            node,
            next: 0,
            run: 0,
            forgot: false,
            slot: None,
            told: Told::nothing(),
            longest,
            frame,
            text,
        })
    }

    /// How many periods were run.
    pub(crate) fn periods_run(&self) -> u64
        ensures { result ≡ self.now.run }
    {
        self.run
    }

    /// Whether a slot is open.
    pub(crate) fn is_open(&self) -> bool
        ensures { result ≡ is_open self.now }
    {
        self.slot.is_some()
    }

    /// Whether this is the number of another node of the cluster.
    fn is_other(&self, node: u8) -> bool
    where
        Nodes: Capacity<N>,
        ensures { result ≡ is_other self.now node }
    {
        node < self.scenario.config().nodes && node != self.id
    }

    /// Whether the cluster has the node, the channel or the clocks that the event names.
    pub(crate) fn is_of_cluster(&self, event: Event) -> bool
    where
        Nodes: Capacity<N>,
        ensures { (room : List ℕ) → result ≡ is_of_cluster self.now (event_in room event) }
    {
        match event {
            Event::Begin(_) | Event::End | Event::Restart => true,
            Event::Deliver { from, .. } => self.is_other(from),
            Event::Reading { channel, .. } => {
                (channel as usize) < self.scenario.config().channels.len()
            }
            Event::Ahead { node, .. } => self.is_other(node) && self.scenario.clock().is_some(),
        }
    }

    /// Whether a period may begin now: the next one, or a later one where the node has forgotten
    /// all.
    fn may_begin(&self, named: Option<u32>) -> bool
        ensures { result ≡ may_begin self.now named }
    {
        match named {
            None => self.next < 1 << 32,
            Some(period) => {
                let period = u64::from(period);
                period == self.next || self.forgot && self.next < period
            }
        }
    }

    /// Whether the event may come now.
    pub(crate) fn allows(&self, event: Event) -> bool
    where
        Nodes: Capacity<N>,
        ensures event { (room : List ℕ) → result ≡ allowed self.now (event_in room event) }
        ensures live { IsLive self.now }
    {
        let is_open = self.slot.is_some();
        match event {
            Event::Begin(named) => !is_open && self.may_begin(named),
            Event::Deliver { .. } | Event::End | Event::Ahead { .. } => is_open,
            Event::Restart | Event::Reading { .. } => !is_open,
        }
    }

    /// The period that may begin now.
    fn period_of(&self, named: Option<u32>) -> u32
        requires may { may_begin self.now named ≡ true }
        ensures period { result ≡ unwrap_or named self.now.next }
        ensures later { self.now.next ≤ result }
    {
        match named {
            Some(period) => period,
            None => self.next as u32,
        }
    }

    /// What the node is given for a period.
    fn inputs(&self, period: u32) -> Inputs
    where
        Nodes: Capacity<N>,
        ensures inputs { result ≡ inputs_given self.now period }
        ensures readings { All IsValue result.reading }
    {
        let mut inputs = self.scenario.inputs(self.id, period);
        replace(&mut inputs.reading, &self.told.given);
        inputs
    }

    /// Begins a period.
    fn begin(&mut self, period: u32)
    where
        Nodes: Capacity<N>,
        requires closed { is_open self.old ≡ false }
        requires later { self.old.next ≤ period }
        ensures { self.new ≡ period_begun self.old period }
    {
        let inputs = self.inputs(period);
        self.node.begin(period, &inputs);
        self.next = u64::from(period) + 1;
        self.forgot = false;
        self.slot = Some(0);
        self.told = Told::nothing();
    }

    /// Ends the open slot.
    fn end_slot(&mut self)
    where
        Nodes: Capacity<N>,
        requires open { is_open self.old ≡ true }
        ensures { self.new ≡ slot_ended self.old (after_slot self.old.node) }
    {
        let Some(slot) = self.slot else {
            return;
        };
        self.node.slot_end();
        if slot + 1 < slot_count(self.scenario.config().m) {
            self.slot = Some(slot + 1);
        } else {
            self.slot = None;
            self.run += 1;
        }
    }

    /// Takes an event, the bytes of whose frame stand at the front of the room.
    pub(crate) fn tell(&mut self, event: Event, room: &[u8])
    where
        Nodes: Capacity<N>,
        requires of_cluster { is_of_cluster self.old (event_in room.now event) ≡ true }
        requires allowed { allowed self.old (event_in room.now event) ≡ true }
        requires fits { FitsIn (length room.now) event }
        ensures { self.new ≡ told self.old (event_in room.now event) }
    {
        match event {
            Event::Begin(named) => {
                let period = self.period_of(named);
                self.begin(period);
            }
            Event::Deliver { from, tick, size } => self.node.deliver(from, tick, &room[..size]),
            Event::End => self.end_slot(),
            Event::Restart => {
                self.node.restart();
                self.forgot = true;
            }
            Event::Reading { channel, value } => self.told.given[channel as usize] = Some(value),
            Event::Ahead { node, by } => self.told.ahead[node as usize] = Some(by),
        }
    }

    /// Writes what the node says in the open slot.
    fn write_say<K: Sink>(&mut self, slot: u8, sink: &mut K) -> Result<(), WriteFault>
    where
        Nodes: Capacity<N>,
        requires open { self.old.node.phase.is_open ≡ true }
        requires slot { slot ≡ self.old.node.phase.slot }
        ensures same { self.new ≡ self.old }
        ensures wrote { Writes (K.written sink.old) (K.written sink.new)
            (K.faults sink.old) (K.faults sink.new)
            (say_text slot (frame_of self.old.node)) result }
    {
        self.node.say(&mut self.frame);
        spell_say(slot, self.frame.as_slice(), &mut self.text);
        write(self.text.as_slice(), sink)
    }

    /// Writes by how much the node corrects its clock after the period that was run last.
    fn write_correct<K: Sink>(
        &mut self,
        outcome: &NodeRecord<N>,
        sink: &mut K,
    ) -> Result<(), WriteFault>
    where
        Nodes: Capacity<N>,
        requires outcome { outcome.now ≡ self.old.node.outcome }
        ensures same { self.new ≡ self.old }
        ensures wrote { Writes (K.written sink.old) (K.written sink.new)
            (K.faults sink.old) (K.faults sink.new) (correct_text (correction self.old)) result }
    {
        let by = correction_by(outcome, &self.told.ahead, self.id, self.scenario.config().m);
        spell_correct(by, &mut self.text);
        write(self.text.as_slice(), sink)
    }

    /// Writes the lines of the period that was run last.
    fn write_run<K: Sink>(&mut self, sink: &mut K) -> Result<(), WriteFault>
    where
        Nodes: Capacity<N>,
        requires closed { is_open self.old ≡ false }
        requires some { 0 < self.old.next }
        ensures same { self.new ≡ self.old }
        ensures wrote { Writes (K.written sink.old) (K.written sink.new)
            (K.faults sink.old) (K.faults sink.new) (period_answer self.old) result }
    {
        let config = self.scenario.config();
        let outcome = self.node.record();
        let period = (self.next - 1) as u32;
        let Ok(()) = write_alone(period, self.id, config, &outcome, sink) else {
            return Err(WriteFault);
        };
        if self.scenario.clock().is_none() {
            return Ok(());
        }
        self.write_correct(&outcome, sink)
    }

    /// Writes what the node answers to an event that was taken last.
    pub(crate) fn answer<K: Sink>(&mut self, event: Event, sink: &mut K) -> Result<(), WriteFault>
    where
        Nodes: Capacity<N>,
        requires some { IsAnswered event → 0 < self.old.next }
        ensures same { self.new ≡ self.old }
        ensures wrote { (room : List ℕ)
            → Writes (K.written sink.old) (K.written sink.new)
            (K.faults sink.old) (K.faults sink.new) (answer self.old (event_in room event)) result }
    {
        match event {
            Event::Begin(_) | Event::End => match self.slot {
                Some(slot) => self.write_say(slot, sink),
                None => self.write_run(sink),
            },
            Event::Deliver { .. } | Event::Restart | Event::Reading { .. } | Event::Ahead { .. } =>
                Ok(()),
        }
    }
}
