//! The printed texts of values.
ghost use Rattle.std.specs.Prelude.{◌≡◌, ◌≤◌, ◌<◌, ◌∷◌, ◌++◌, [], None, codes, decimal, length};
ghost use Rattle.std.specs.Prelude.{take, map, slice_index_or};
ghost use Rattle.node_grid.specs.NodeSet.{ids_below};
ghost use Rattle.omh_paths.specs.declared.wrapped.Wrapped.TheVariants.{Fault};
ghost use Rattle.list_scheduler.specs.Copies.{works};
ghost use Rattle.node_core.specs.Modes.{mode_of};
ghost use Rattle.run_print.specs.Printing.{Prints};
ghost use Rattle.run_text.specs.ClockText.{signed_text};
ghost use Rattle.run_text.specs.Text.{separated, numbers_text, set_text, separator_at};
ghost use Rattle.run_text.specs.Text.{mode_text, running_text, runs_text, vote_text, vote_item};
ghost use Rattle.run_text.specs.Text.{votes_text, claim_text, done_item};

use crate::pieces::has_copies;
use crate::printer::{Printer, two_digits};
use list_scheduler::Copies;
use node_core::Mode;
use node_grid::{Capacity, NO_CLAIM, NodeSet, Nodes};
use omh_paths::Wrapped;
use span_io::Sink;

/// The text of as many nodes as there can be.
const ALL_NODES: [u8; 37] = *b"0,1,2,3,4,5,6,7,8,9,10,11,12,13,14,15";

/// What is settled for the claim of a member; an error for a number that is no node's.
fn claim_of<const N: usize>(done: &[Wrapped<u8>; N], member: u8) -> Wrapped<u8>
    ensures { result ≡ slice_index_or done.now member (Fault 0) }
{
    match done.get(member as usize) {
        Some(claim) => *claim,
        None => Wrapped::Fault(0),
    }
}

/// The text of the nodes below a number of 1 to 16.
fn first_nodes(count: u8) -> &'static [u8]
    requires some { 0 < count }
    requires few { count ≤ 16 }
    ensures { result.now ≡ numbers_text (ids_below count) }
{
    let count = count as usize;
    // from node 10 on there is a digit more
    &ALL_NODES[..2 * count - 1 + count.saturating_sub(10)]
}

/// What a node runs; nothing of a node that has no copies.
fn running_on<const N: usize>(copies: &Copies<N>, node: u8) -> Option<(u8, u16)>
where
    Nodes: Capacity<N>,
    ensures { result ≡ works copies.now node }
{
    if has_copies(copies, node) {
        copies.running(node)
    } else {
        None
    }
}

/// The vote on a channel; none for a number that is no channel's.
fn vote_of(votes: &[Option<i64>; 8], channel: u8) -> Option<i64>
    ensures { result ≡ slice_index_or votes.now channel None }
{
    match votes.get(channel as usize) {
        Some(vote) => *vote,
        None => None,
    }
}

impl<const ROOM: usize> Printer<ROOM> {
    /// Prints the separator before the item at place `k`.
    pub(crate) fn separator<K: Sink>(&mut self, sink: &mut K, k: usize, separator: u8)
        ensures { Prints K.written K.faults self.old sink.old self.new sink.new
            (separator_at (separator ∷ []) k) }
    {
        if k > 0 {
            self.byte(sink, separator);
        }
    }

    /// Prints a number behind a separator.
    fn number_behind<K: Sink>(&mut self, sink: &mut K, separator: u8, n: u64)
        ensures { Prints K.written K.faults self.old sink.old self.new sink.new
            (separator ∷ decimal n) }
    {
        if n < 10 {
            self.text(sink, &[separator, b'0' + n as u8]);
        } else {
            self.byte(sink, separator);
            self.number(sink, n);
        }
    }

    /// Prints the number at place `k` of some, behind a separator where it isn't the first.
    fn number_at<K: Sink>(&mut self, sink: &mut K, k: usize, separator: u8, n: u64)
        ensures { Prints K.written K.faults self.old sink.old self.new sink.new
            (separator_at (separator ∷ []) k ++ decimal n) }
    {
        if k > 0 {
            self.number_behind(sink, separator, n);
        } else {
            self.number(sink, n);
        }
    }

    /// Prints numbers, joined by commas.
    pub(crate) fn numbers<K: Sink>(&mut self, sink: &mut K, numbers: &[u16])
        ensures { Prints K.written K.faults self.old sink.old self.new sink.new
            (numbers_text numbers.now) }
    {
        for (k, n) in numbers.iter().enumerate() {
            self.number_at(sink, k, b',', *n as u64);
        }
    }

    /// Prints numbers with signs, joined by commas.
    pub(crate) fn signed_numbers<K: Sink>(&mut self, sink: &mut K, numbers: &[i64])
        ensures { Prints K.written K.faults self.old sink.old self.new sink.new
            (signed_text numbers.now) }
    {
        for (k, n) in numbers.iter().enumerate() {
            self.separator(sink, k, b',');
            self.signed(sink, *n);
        }
    }

    /// Prints a set of nodes, which mostly are all below a number.
    pub(crate) fn set<K: Sink, const N: usize>(&mut self, sink: &mut K, set: &NodeSet<N>)
        ensures { Prints K.written K.faults self.old sink.old self.new sink.new (set_text set.now) }
    {
        // a call that gives nodes of the set tells the checker that there are at most 16
        let _ = set.iter();
        let count = set.len();
        if count == 0 {
            self.byte(sink, b'-');
        } else if *set == NodeSet::full(count) {
            self.text(sink, first_nodes(count));
        } else {
            self.members(sink, set);
        }
    }

    /// Prints some nodes, one by one.
    fn members<K: Sink, const N: usize>(&mut self, sink: &mut K, set: &NodeSet<N>)
        ensures { Prints K.written K.faults self.old sink.old self.new sink.new
            (numbers_text set.now) }
    {
        let mut printed: usize = 0;
        for node in set.iter() {
            self.number_at(sink, printed, b',', node as u64);
            printed += 1;
        }
    }

    /// Prints how a node goes through a period.
    pub(crate) fn mode<K: Sink>(&mut self, sink: &mut K, mode: Mode)
        ensures { Prints K.written K.faults self.old sink.old self.new sink.new
            (mode_text (mode_of mode)) }
    {
        match mode {
            Mode::Full => self.text(sink, b"full"),
            Mode::Joining => self.text(sink, b"joining"),
            Mode::Cold => self.text(sink, b"cold"),
        }
    }

    /// Prints the task that the node at place `k` runs, behind a comma where it isn't the first.
    pub(crate) fn run_at<K: Sink>(&mut self, sink: &mut K, k: usize, run: Option<(u8, u16)>)
        ensures { Prints K.written K.faults self.old sink.old self.new sink.new
            (separator_at (codes ",") k ++ running_text run) }
    {
        match run {
            Some((task, _)) => self.number_at(sink, k, b',', task as u64),
            None if k > 0 => self.text(sink, b",-"),
            None => self.byte(sink, b'-'),
        }
    }

    /// Prints what each node in use runs.
    pub(crate) fn runs<K: Sink, const N: usize>(
        &mut self,
        sink: &mut K,
        nodes: u8,
        copies: &Copies<N>,
    )
    where
        Nodes: Capacity<N>,
        ensures { Prints K.written K.faults self.old sink.old self.new sink.new
            (runs_text nodes copies.now) }
    {
        for node in 0..nodes {
            self.run_at(sink, node as usize, running_on(copies, node));
        }
    }

    /// Prints a vote.
    fn vote<K: Sink>(&mut self, sink: &mut K, vote: Option<i64>)
        ensures { Prints K.written K.faults self.old sink.old self.new sink.new (vote_text vote) }
    {
        match vote {
            Some(value) => self.signed(sink, value),
            None => self.byte(sink, b'-'),
        }
    }

    /// Prints the front of an item that isn't the first: its number, between a space and `=`.
    fn next_front<K: Sink>(&mut self, sink: &mut K, n: u8)
        ensures { Prints K.written K.faults self.old sink.old self.new sink.new
            (codes " " ++ (decimal n ++ codes "=")) }
    {
        if n < 10 {
            self.text(sink, &[b' ', b'0' + n, b'=']);
        } else if n < 100 {
            let [tens, ones] = two_digits(n);
            self.text(sink, &[b' ', tens, ones, b'=']);
        } else {
            self.number_behind(sink, b' ', n as u64);
            self.byte(sink, b'=');
        }
    }

    /// Prints the front of the item at place `k`, which tells something of a number: the number,
    /// behind a space where it isn't the first.
    pub(crate) fn item_front<K: Sink>(&mut self, sink: &mut K, k: usize, n: u8)
        ensures { Prints K.written K.faults self.old sink.old self.new sink.new
            (separator_at (codes " ") k ++ (decimal n ++ codes "=")) }
    {
        if k > 0 {
            self.next_front(sink, n);
        } else {
            self.number(sink, n as u64);
            self.byte(sink, b'=');
        }
    }

    /// Prints the channel at place `k` with its vote.
    fn vote_item<K: Sink>(&mut self, sink: &mut K, k: usize, votes: &[Option<i64>; 8], channel: u8)
        ensures { Prints K.written K.faults self.old sink.old self.new sink.new
            (separator_at (codes " ") k ++ vote_item votes.now channel) }
    {
        self.item_front(sink, k, channel);
        self.vote(sink, vote_of(votes, channel));
    }

    /// Prints the votes on the due channels.
    pub(crate) fn votes<K: Sink>(&mut self, sink: &mut K, votes: &[Option<i64>; 8], due: &[u8])
        ensures { Prints K.written K.faults self.old sink.old self.new sink.new
            (votes_text votes.now due.now) }
    {
        if due.is_empty() {
            self.byte(sink, b'-');
            return;
        }
        for (k, channel) in due.iter().enumerate() {
            self.vote_item(sink, k, votes, *channel);
        }
    }

    /// Prints a settled claim.
    fn claim<K: Sink>(&mut self, sink: &mut K, claim: Wrapped<u8>)
        ensures { Prints K.written K.faults self.old sink.old self.new sink.new (claim_text claim) }
    {
        match claim {
            Wrapped::Plain(NO_CLAIM) => self.byte(sink, b'-'),
            Wrapped::Plain(task) => self.number(sink, task as u64),
            Wrapped::Fault(_) => self.byte(sink, b'E'),
        }
    }

    /// Prints the member at place `k` with its settled claim.
    fn done_item<K: Sink, const N: usize>(
        &mut self,
        sink: &mut K,
        k: usize,
        done: &[Wrapped<u8>; N],
        member: u8,
    )
        ensures { Prints K.written K.faults self.old sink.old self.new sink.new
            (separator_at (codes " ") k ++ done_item done.now member) }
    {
        self.item_front(sink, k, member);
        self.claim(sink, claim_of(done, member));
    }

    /// Prints the members with their settled claims.
    pub(crate) fn done<K: Sink, const N: usize>(
        &mut self,
        sink: &mut K,
        done: &[Wrapped<u8>; N],
        members: &NodeSet<N>,
    )
        ensures { Prints K.written K.faults self.old sink.old self.new sink.new
            (separated (codes " ") (map (done_item done.now) members.now)) }
    {
        let mut printed: usize = 0;
        for member in members.iter() {
            self.done_item(sink, printed, done, member);
            printed += 1;
        }
    }
}
