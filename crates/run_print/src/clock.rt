//! The printed line of the clocks of a period.
ghost use Rattle.std.specs.Prelude.{◌≡◌, ◌≤◌, None, length, take};
ghost use Rattle.run_print.specs.Printing.{Prints};
ghost use Rattle.node_grid.specs.Class.{is_sound};
ghost use Rattle.run_text.specs.ClockText.{sound_numbers, range_of, widened, spread_text};
ghost use Rattle.run_text.specs.ClockText.{clock_line, clock_text};

use crate::pieces::first;
use crate::printer::Printer;
use cluster_record::PeriodRecord;
use node_grid::Class;
use span_io::Sink;

/// Whether a node of this class is sound.
fn is_sound(class: Class) -> bool
    ensures { result ≡ is_sound class }
{
    match class {
        Class::N | Class::J => true,
        Class::B | Class::S | Class::A => false,
    }
}

/// The least and the greatest number, with one more.
fn widened(range: Option<(i64, i64)>, x: i64) -> (i64, i64)
    ensures { result ≡ widened range x }
{
    match range {
        None => (x, x),
        Some((least, greatest)) => (least.min(x), greatest.max(x)),
    }
}

/// The least and the greatest number of a sound node; none where no node is sound.
fn sound_range(classes: &[Class], numbers: &[i64]) -> Option<(i64, i64)>
    ensures { result ≡ range_of (sound_numbers classes.now numbers.now) }
{
    let mut range = None;
    for i in 0..numbers.len().min(classes.len()) {
        let number = numbers[i];
        if is_sound(classes[i]) {
            range = Some(widened(range, number));
        }
    }
    range
}

impl<const ROOM: usize> Printer<ROOM> {
    /// Prints how far the least and the greatest number of a sound node are apart.
    fn spread<K: Sink>(&mut self, sink: &mut K, classes: &[Class], numbers: &[i64])
        ensures { Prints K.written K.faults self.old sink.old self.new sink.new
            (spread_text (range_of (sound_numbers classes.now numbers.now))) }
    {
        match sound_range(classes, numbers) {
            None => self.byte(sink, b'-'),
            Some((least, greatest)) => self.number(sink, greatest.abs_diff(least)),
        }
    }

    /// Prints the line of clocks with these offsets.
    pub(crate) fn clock_line<K: Sink, const N: usize>(
        &mut self,
        sink: &mut K,
        nodes: u8,
        classes: &[Class; N],
        offset: &[i64; N],
    )
        ensures { Prints K.written K.faults self.old sink.old self.new sink.new
            (clock_line nodes classes.now offset.now) }
    {
        let offsets = first(offset, nodes);
        self.text(sink, b"clock skew ");
        self.spread(sink, first(classes, nodes), offsets);
        self.text(sink, b" offsets ");
        self.signed_numbers(sink, offsets);
        self.byte(sink, b'\n');
    }

    /// Prints the line of a period's clocks, where it has some.
    pub(crate) fn clock<K: Sink, const N: usize>(&mut self, sink: &mut K, shown: &PeriodRecord<N>)
        ensures { Prints K.written K.faults self.old sink.old self.new sink.new
            (clock_text shown.now shown.now.clock) }
    {
        if let Some(clock) = &shown.clock {
            self.clock_line(sink, shown.nodes, &shown.classes, &clock.offset);
        }
    }
}
