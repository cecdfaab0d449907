//! Items of a node's lines that are mostly short, each handed on at once.
ghost use Rattle.std.specs.Prelude.{◌≡◌, ◌≤◌, ◌<◌, ◌++◌, ◌∷◌, [], None, true, false, length, map, replicate, take};
ghost use Rattle.std.specs.Prelude.{codes, decimal, slice_index_or};
ghost use Rattle.list_scheduler.specs.Copies.{works};
ghost use Rattle.run_print.specs.Printing.{Prints};
ghost use Rattle.run_print.specs.Example.{IsIdleFrom};
ghost use Rattle.node_grid.specs.Matrix.{row_at};
ghost use Rattle.node_grid.specs.declared.class.Class.TheVariants.{N};
ghost use Rattle.run_text.specs.Text.{separated, class_text, numbers_text, runs_text, row_text};
ghost use Rattle.run_text.specs.Text.{rows_item};

use crate::printer::{Printer, two_digits};
use list_scheduler::{Copies, CopyState};
use node_grid::{Capacity, Class, Matrix, NodeSet, Nodes};
use span_io::Sink;

/// As many zeros as there can be nodes, joined by commas.
const ZEROS: [u8; 31] = *b"0,0,0,0,0,0,0,0,0,0,0,0,0,0,0,0";

/// The first of some items; all where there are fewer.
pub(crate) fn first<T>(items: &[T], count: u8) -> &[T]
    ensures { result.now ≡ take count items.now }
{
    &items[..items.len().min(count as usize)]
}

/// Whether all numbers are 0.
fn are_zero(numbers: &[u16]) -> bool
    ensures { result ≡ true → numbers.now ≡ replicate (length numbers.now) 0 }
{
    let mut most = 0;
    for n in numbers {
        most = most.max(*n);
    }
    most == 0
}

/// The letter of a class.
fn letter_of(class: Class) -> u8
    ensures { class_text class ≡ result ∷ [] }
{
    match class {
        Class::N => b'N',
        Class::J => b'J',
        Class::B => b'B',
        Class::S => b'S',
        Class::A => b'A',
    }
}

/// The letter of the class of node `i`; that of class N for a number that is no node's.
pub(crate) fn letter_at(classes: &[Class], i: u8) -> u8
    ensures { class_text (slice_index_or classes.now i N) ≡ result ∷ [] }
{
    match classes.get(i as usize) {
        Some(class) => letter_of(*class),
        None => b'N',
    }
}

/// Whether a node has copies of tasks; nothing runs on another one.
pub(crate) fn has_copies<const N: usize>(copies: &Copies<N>, node: u8) -> bool
where
    Nodes: Capacity<N>,
    ensures within { result ≡ true → node < N }
    ensures beyond { result ≡ false → works copies.now node ≡ None }
{
    // a call that gives a copy tells the checker how many stand in a row
    let _ = copies.at(0, 0);
    (node as usize) < N
}

/// What a node runs, of tasks below this number; nothing of a node that has no copies.
fn running_among<const N: usize>(copies: &Copies<N>, tasks: u8, node: u8) -> Option<(u8, u16)>
where
    Nodes: Capacity<N>,
    requires tasks { tasks ≤ 32 }
    requires idle { IsIdleFrom tasks copies.now }
    ensures { result ≡ works copies.now node }
{
    if !has_copies(copies, node) {
        return None;
    }
    for t in 0..tasks {
        if let CopyState::Running(periods) = copies.at(t, node) {
            return Some((t, periods));
        }
    }
    None
}

impl<const ROOM: usize> Printer<ROOM> {
    /// Prints the front of a node's lines: its number, and the letter of its class, or what stands
    /// for it.
    pub(crate) fn front<K: Sink>(&mut self, sink: &mut K, i: u8, letter: u8)
        ensures { Prints K.written K.faults self.old sink.old self.new sink.new
            (codes "node " ++ decimal i ++ codes " " ++ (letter ∷ []) ++ codes " ") }
    {
        if i < 10 {
            self.text(
                sink,
                &[b'n', b'o', b'd', b'e', b' ', b'0' + i, b' ', letter, b' '],
            );
        } else if i < 100 {
            let [tens, ones] = two_digits(i);
            self.text(
                sink,
                &[b'n', b'o', b'd', b'e', b' ', tens, ones, b' ', letter, b' '],
            );
        } else {
            self.labelled(sink, b"node ", i as u64);
            self.text(sink, &[b' ', letter, b' ']);
        }
    }

    /// Prints a number of each node in use, joined by commas. Mostly all are 0.
    pub(crate) fn mostly_zeros<K: Sink, const N: usize>(
        &mut self,
        sink: &mut K,
        nodes: u8,
        numbers: &[u16; N],
    )
    where
        Nodes: Capacity<N>,
        ensures { Prints K.written K.faults self.old sink.old self.new sink.new
            (numbers_text (take nodes numbers.now)) }
    {
        let shown = first(numbers, nodes);
        if !shown.is_empty() && are_zero(shown) {
            self.text(sink, &ZEROS[..2 * shown.len() - 1]);
        } else {
            self.numbers(sink, shown);
        }
    }

    /// Prints what each node in use runs, of the tasks that there are.
    pub(crate) fn runs_among<K: Sink, const N: usize>(
        &mut self,
        sink: &mut K,
        nodes: u8,
        tasks: u8,
        copies: &Copies<N>,
    )
    where
        Nodes: Capacity<N>,
        requires tasks { tasks ≤ 32 }
        requires idle { IsIdleFrom tasks copies.now }
        ensures { Prints K.written K.faults self.old sink.old self.new sink.new
            (runs_text nodes copies.now) }
    {
        for node in 0..nodes {
            self.run_at(sink, node as usize, running_among(copies, tasks, node));
        }
    }

    /// Prints the settled row of a member, of which mostly all masks are 0.
    fn row_of<K: Sink, const N: usize>(
        &mut self,
        sink: &mut K,
        nodes: u8,
        rows: &Matrix<N>,
        member: u8,
    )
    where
        Nodes: Capacity<N>,
        ensures { Prints K.written K.faults self.old sink.old self.new sink.new
            (row_text nodes (row_at rows.now member)) }
    {
        match rows.get(member) {
            Some(row) => self.mostly_zeros(sink, nodes, &row.masks),
            None => self.byte(sink, b'E'),
        }
    }

    /// Prints the members with their settled rows.
    pub(crate) fn rows<K: Sink, const N: usize>(
        &mut self,
        sink: &mut K,
        nodes: u8,
        rows: &Matrix<N>,
        members: &NodeSet<N>,
    )
    where
        Nodes: Capacity<N>,
        ensures { Prints K.written K.faults self.old sink.old self.new sink.new
            (separated (codes " ") (map (rows_item nodes rows.now) members.now)) }
    {
        let mut printed: usize = 0;
        for member in members.iter() {
            self.item_front(sink, printed, member);
            self.row_of(sink, nodes, rows, member);
            printed += 1;
        }
    }
}
