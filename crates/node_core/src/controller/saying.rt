//! What a node says in the open slot.

ghost use Rattle.std.specs.Prelude.{◌≡◌, ◌+◌, ◌≤◌, length, vec_capacity};
ghost use Rattle.frames.specs.Seen.{content, HasWidth};
ghost use Rattle.frames.specs.Spelling.{body_spelling};
ghost use Rattle.node_steps.specs.Ready.{IsReady, IsFullWith, head_now};
ghost use Rattle.node_steps.specs.Steps.{said_by, frame_of};

use super::Controller;
use crate::claim::own_claim;
use agreed_state::Agreed;
use data_slot::put_values;
use frames::{Body, Frame, HEADER, Head, Values, encode};
use node_grid::{Capacity, Nodes};
use relaying::say_round;
use slot_plan::Slot;

impl<'c, const N: usize> Controller<'c, N> {
    /// The head of its frame.
    fn head(&self) -> Head
        ensures { result ≡ head_now self.now }
    {
        Head {
            version: self.config.version,
            period: self.phase.period,
            sender: self.phase.me,
            slot: self.phase.slot.number(self.config.m),
        }
    }

    /// Writes a frame, which says what the node says in the open slot, with a body of `size` bytes.
    fn write(&self, frame: &Frame<'_, N>, size: usize, out: &mut Vec<u8>)
    where
        Nodes: Capacity<N>,
        requires ready { IsReady self.now (vec_capacity out.old) }
        requires head { frame.now.head ≡ head_now self.now }
        requires widths { HasWidth self.now.config.nodes frame.now.body }
        requires says { said_by self.now self.now.phase.before ≡
            content self.now.config.nodes frame.now.body }
        requires size { size ≡ length (body_spelling self.now.config.nodes
            (content self.now.config.nodes frame.now.body)) }
        ensures written { out.new.items ≡ frame_of self.now }
        ensures room { vec_capacity out.old ≤ vec_capacity out.new }
    {
        let nodes = self.config.nodes;
        let _within_room = out.resize(HEADER + size, 0).is_ok();
        encode(frame, nodes, out.as_mut_slice());
    }

    /// Writes the node's agreed state, in the sync slot. The other slots need no room for a state.
    #[inline(never)]
    fn say_state(&self, agreed: &Agreed<N>, out: &mut Vec<u8>)
    where
        Nodes: Capacity<N>,
        requires ready { IsReady self.now (vec_capacity out.old) }
        requires own { IsFullWith self.now agreed.now }
        requires slot { self.now.phase.slot ≡ 0 }
        ensures written { out.new.items ≡ frame_of self.now }
        ensures room { vec_capacity out.old ≤ vec_capacity out.new }
    {
        let state = agreed.body(self.config);
        let bytes = state.as_slice();
        let frame = Frame {
            head: self.head(),
            body: Body::State(bytes),
        };
        self.write(&frame, bytes.len(), out);
    }

    /// Writes the node's claim, or in a relay slot what it passes on of claims.
    fn say_claims(&self, agreed: &Agreed<N>, round: u8, out: &mut Vec<u8>)
    where
        Nodes: Capacity<N>,
        requires ready { IsReady self.now (vec_capacity out.old) }
        requires own { IsFullWith self.now agreed.now }
        requires round { round ≤ self.now.config.m }
        requires slot { self.now.phase.slot ≡ 1 + round }
        ensures written { out.new.items ≡ frame_of self.now }
        ensures room { vec_capacity out.old ≤ vec_capacity out.new }
    {
        if round == 0 {
            let claim = own_claim(agreed, self.phase.me, &self.phase.inputs);
            let frame = Frame {
                head: self.head(),
                body: Body::Done0(claim),
            };
            self.write(&frame, 1, out);
            return;
        }
        let expect = self.expectation(Slot::Claims(round));
        say_round(&self.done, &expect, round, out);
    }

    /// Writes the node's own values of the due channels, in the data slot.
    fn say_values(&self, agreed: &Agreed<N>, out: &mut Vec<u8>)
    where
        Nodes: Capacity<N>,
        requires ready { IsReady self.now (vec_capacity out.old) }
        requires own { IsFullWith self.now agreed.now }
        requires slot { self.now.phase.slot ≡ self.now.config.m + 2 }
        ensures written { out.new.items ≡ frame_of self.now }
        ensures room { vec_capacity out.old ≤ vec_capacity out.new }
    {
        let _ = agreed;
        let due = self.found.due.as_slice();
        let mut bytes = [0; 64];
        put_values(&self.found.own, due, &mut bytes);
        let size = 8 * due.len();
        let values = Values::over(&bytes[..size]);
        let frame = Frame {
            head: self.head(),
            body: Body::Data(values),
        };
        self.write(&frame, size, out);
    }

    /// Writes the node's row, or in a relay slot what it passes on of rows.
    fn say_rows(&self, agreed: &Agreed<N>, round: u8, out: &mut Vec<u8>)
    where
        Nodes: Capacity<N>,
        requires ready { IsReady self.now (vec_capacity out.old) }
        requires own { IsFullWith self.now agreed.now }
        requires round { round ≤ self.now.config.m }
        requires slot { self.now.phase.slot ≡ self.now.config.m + 3 + round }
        ensures written { out.new.items ≡ frame_of self.now }
        ensures room { vec_capacity out.old ≤ vec_capacity out.new }
    {
        let _ = agreed;
        if round == 0 {
            let frame = Frame {
                head: self.head(),
                body: Body::Report0(self.found.notes.row()),
            };
            self.write(&frame, 2 * self.config.nodes as usize, out);
            return;
        }
        let expect = self.expectation(Slot::Rows(round));
        say_round(&self.rows, &expect, round, out);
    }

    /// Writes what the Full node says, by the slot.
    fn say_own(&self, agreed: &Agreed<N>, out: &mut Vec<u8>)
    where
        Nodes: Capacity<N>,
        requires ready { IsReady self.now (vec_capacity out.old) }
        requires own { IsFullWith self.now agreed.now }
        ensures written { out.new.items ≡ frame_of self.now }
        ensures room { vec_capacity out.old ≤ vec_capacity out.new }
    {
        match self.phase.slot {
            Slot::Sync => self.say_state(agreed, out),
            Slot::Claims(round) => self.say_claims(agreed, round, out),
            Slot::Data => self.say_values(agreed, out),
            Slot::Rows(round) => self.say_rows(agreed, round, out),
        }
    }

    /// Writes the frame of the open slot into `out`, which has room for it.
    pub fn say(&self, out: &mut Vec<u8>)
    where
        Nodes: Capacity<N>,
        requires ready { IsReady self.now (vec_capacity out.old) }
        ensures written { out.new.items ≡ frame_of self.now }
        ensures room { vec_capacity out.old ≤ vec_capacity out.new }
    {
        match &self.phase.before {
            Some(agreed) => {
                if self.phase.full {
                    self.say_own(agreed, out);
                    return;
                }
            }
            None => {}
        }
        let frame = Frame {
            head: self.head(),
            body: Body::Cold,
        };
        self.write(&frame, 0, out);
    }
}
