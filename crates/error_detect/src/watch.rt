//! What arrived from each sender in a slot.

ghost use Rattle.std.specs.Prelude.{ℕ, ◌≡◌, ◌≢◌, ◌<◌, ◌≤◌, true, false, None, IfOk, IfSome, IfNone};
ghost use Rattle.std.specs.Prelude.{IsSome, option_map, length, map, replicate, take};
ghost use Rattle.node_grid.specs.Capacity.{IsCapacity};
ghost use Rattle.frames.specs.Seen.{content, expected, HasWidth};
ghost use Rattle.frames.specs.Spelling.{head_of};
ghost use Rattle.node_grid.specs.NodeSet.{has_id, ids_where};
ghost use Rattle.error_detect.specs.Finding.{is_good_at};
ghost use Rattle.error_detect.specs.Watching.{fresh, opened, delivered, closed, of_sender, HasRoom};
ghost use Rattle.error_detect.specs.Watching.{finding_at, findings, told_at};
ghost use Rattle.error_detect.specs.Entries.{body_begin, entries_begin, HoldsBodies};

use crate::arrival::Arrivals;
use crate::finding::Finding;
use crate::rooms::Rooms;
use frames::{Body, Expect, Frame, HEADER};
use node_grid::{Capacity, NoMemory, NodeSet, Nodes};
use std::alloc::Global;
use std::marker::Model;

/// What arrived from each other node in a slot, and what is found by that.
#[derive(Drop)]
pub struct SlotWatch<const N: usize> {
    nodes: u8,
    me: u8,
    expect: Option<Expect<N>>,
    is_open: bool,
    arrivals: Arrivals,
    good: NodeSet<N>,
}

// Clauses see the numbers given to `open`, what was expected in the last slot, whether it is open,
// and what arrived, by sender.
impl<const N: usize> Model for SlotWatch<N> {
    ghost use Rattle.std.specs.Prelude.{option_map};
    ghost use Rattle.frames.specs.Seen.{expected};
    ghost use Rattle.error_detect.specs.Watching.{Watch, watch_of};
    ghost use Rattle.error_detect.specs.Inside.{IsKept};

    ghost Value = { Watch };

    ghost view = { λ w. watch_of w.nodes w.me (option_map expected w.expect) w.is_open w.arrivals };

    ghost invariant = { λ w. IsKept N
        (watch_of w.nodes w.me (option_map expected w.expect) w.is_open w.arrivals)
        w.arrivals.held w.good };
}

/// The nodes whose finding is Good.
fn good_nodes<const N: usize>(found: &[Finding; N]) -> NodeSet<N>
where
    Nodes: Capacity<N>,
    ensures { result ≡ ids_where (is_good_at found.now) N }
{
    let mut good = NodeSet::empty();
    for node in 0..N {
        if found[node].is_good() {
            good.put(node as u8);
        }
    }
    good
}

impl<const N: usize> SlotWatch<N> {
    /// A watch of node `me` over so many nodes, for frames of at most `frame_max` bytes.
    ///
    /// Answers NoMemory where the inboxes can't be had. No other call takes memory.
    pub fn open(
        alloc: Global,
        nodes: u8,
        me: u8,
        frame_max: usize,
    ) -> Result<SlotWatch<N>, NoMemory>
    where
        Nodes: Capacity<N>,
        requires nodes { nodes ≤ N }
        ensures { IfOk result (λ w. w ≡ fresh nodes me frame_max) }
    {
        let Ok(arrivals) = Arrivals::open(alloc, nodes, frame_max) else {
            return Err(NoMemory);
        };
        Ok(SlotWatch {
            nodes,
            me,
            expect: None,
            is_open: false,
            arrivals,
            good: NodeSet::empty(),
        })
    }

    /// Opens a slot in which this is expected of each sender, whatever sender it names, and forgets
    /// the last one.
    pub fn open_slot(&mut self, expect: &Expect<N>)
        requires nodes { expect.now.nodes ≡ self.old.nodes }
        requires some_nodes { 0 < expect.now.nodes }
        requires rounds { expect.now.m ≤ 3 }
        requires room { HasRoom self.old.frame_max (expected expect.now) }
        ensures { self.new ≡ opened self.old (expected expect.now) }
    {
        self.expect = Some(*expect);
        self.is_open = true;
        self.arrivals.forget();
    }

    /// Exchanges the room that it has for the bytes of all senders with these, where it holds no
    /// bytes and they are as large. Called again once none are held, it gives back what it took.
    pub fn swap_rooms(&mut self, rooms: &mut Rooms)
        ensures { self.new ≡ self.old }
    {
        rooms.swap(&mut self.arrivals);
    }

    /// Forgets all that it saw: it stands as when it was opened.
    pub fn forget(&mut self)
        ensures { self.new ≡ fresh self.old.nodes self.old.me self.old.frame_max }
    {
        self.expect = None;
        self.is_open = false;
        self.arrivals.forget();
    }

    /// A delivery from another node: bytes at a tick. What is found of them is decided now. Bytes
    /// longer than any frame are not kept.
    pub fn deliver(&mut self, from: u8, tick: u8, bytes: &[u8])
    where
        Nodes: Capacity<N>,
        requires open { self.old.is_open ≡ true }
        requires node { from < self.old.nodes }
        requires other { from ≢ self.old.me }
        ensures { self.new ≡ delivered self.old from tick bytes.now }
    {
        let Some(expect) = &self.expect else {
            return;
        };
        let expected = Expect {
            sender: from,
            ..*expect
        };
        self.arrivals.take(&expected, tick, bytes);
    }

    /// What is expected of each sender of the last slot, whatever sender it names; None before the
    /// first slot.
    pub fn expect(&self) -> Option<&Expect<N>>
        ensures is { option_map (λ e. expected e.now) result ≡ self.now.expect }
        ensures capacity { IsCapacity N }
        ensures few { self.now.nodes ≤ N }
        ensures nodes { IfSome result (λ e. e.now.nodes ≡ self.now.nodes) }
        ensures some_nodes { IfSome result (λ e. 0 < e.now.nodes) }
        ensures rounds { IfSome result (λ e. e.now.m ≤ 3) }
    {
        self.expect.as_ref()
    }

    /// The finding of a node; Good for the watch's own, and where there is no node.
    fn finding(&self, node: u8) -> Finding
        ensures { result ≡ finding_at self.now node }
    {
        if node == self.me || node >= self.nodes {
            return Finding::Good;
        }
        match &self.expect {
            None => Finding::Good,
            Some(_) => self.arrivals.finding(node),
        }
    }

    /// The finding of each node.
    fn findings(&self) -> [Finding; N]
        ensures { result ≡ findings N self.now }
    {
        let _ = &self.nodes;
        let mut found = [Finding::Good; N];
        for node in 0..N {
            found[node] = self.finding(node as u8);
        }
        found
    }

    /// Closes the slot and answers the finding of each node; Good for the watch's own, and where
    /// there is no node.
    pub fn close(&mut self) -> [Finding; N]
    where
        Nodes: Capacity<N>,
        requires open { self.old.is_open ≡ true }
        ensures found { result ≡ findings N self.old }
        ensures closed { self.new ≡ closed self.old }
    {
        let found = self.findings();
        self.good = good_nodes(&found);
        self.is_open = false;
        found
    }

    /// The frame of a node in the slot that was closed last, exactly where its finding was Good.
    pub fn frame(&self, from: u8) -> Option<Frame<'_, N>>
    where
        Nodes: Capacity<N>,
        requires closed { self.now.is_open ≡ false }
        requires some_slot { IsSome self.now.expect }
        requires node { from < self.now.nodes }
        requires other { from ≢ self.now.me }
        ensures head { IfSome result (λ f. IfSome self.now.expect (λ e. f.head
            ≡ head_of (of_sender from e))) }
        ensures widths { IfSome result (λ f. HasWidth self.now.nodes f.body) }
        ensures told { option_map (λ f. content self.now.nodes f.body) result
            ≡ told_at self.now from }
    {
        if !self.good.has(from) {
            return None;
        }
        match &self.expect {
            None => None,
            Some(expect) => {
                let expect = Expect {
                    sender: from,
                    ..*expect
                };
                Some(self.arrivals.good_frame(&expect))
            }
        }
    }

    /// The room of bytes in which the frames of a slot stand: that of node `q` from
    /// `q * frame_max` on.
    pub fn room(&self) -> &[u8]
        ensures { HoldsBodies self.now result.now }
    {
        let _ = &self.nodes;
        self.arrivals.room()
    }

    /// Where in the [`SlotWatch::room`] the entries begin that a node passed on in the slot that
    /// was closed last: some exactly where its finding was Good and its frame has entries.
    pub fn entries_at(&self, from: u8) -> Option<usize>
    where
        Nodes: Capacity<N>,
        requires closed { self.now.is_open ≡ false }
        requires some_slot { IsSome self.now.expect }
        requires node { from < self.now.nodes }
        requires other { from ≢ self.now.me }
        ensures { result ≡ entries_begin (body_begin self.now from) (told_at self.now from) }
    {
        let _ = &self.nodes;
        let Some(frame) = self.frame(from) else {
            return None;
        };
        match &frame.body {
            Body::DoneRelay(_) | Body::ReportRelay(_) => Some(self.arrivals.begin(from) + HEADER),
            Body::State(_) | Body::Done0(_) | Body::Data(_) | Body::Report0(_) | Body::Cold => None,
        }
    }
}
