//! Cells, each with the comma before it.
ghost use Rattle.std.specs.Prelude.{◌≡◌, ◌∷◌, []};
ghost use Rattle.run_text.specs.Text.{class_text};
ghost use Rattle.run_print.specs.Printing.{Prints};
ghost use Rattle.judge_text.specs.Cells.{cell, maybe_cell, signed_cell, class_cell, whether_cell};

use node_grid::Class;
use run_print::Printer;
use span_io::Sink;

/// Room for the rows of a scenario in which few nodes fall ill.
pub(crate) const ROOM: usize = 4096;

/// The letter of a class.
fn letter(class: Class) -> u8
    ensures { class_text class ≡ result ∷ [] }
{
    match class {
        Class::N => b'N',
        Class::J => b'J',
        Class::B => b'B',
        Class::S => b'S',
        Class::A => b'A',
    }
}

/// A number.
pub(crate) fn number<K: Sink>(printer: &mut Printer<ROOM>, sink: &mut K, n: u64)
    ensures { Prints K.written K.faults printer.old sink.old printer.new sink.new (cell n) }
{
    printer.labelled(sink, b",", n);
}

/// A number, where there is one.
pub(crate) fn maybe<K: Sink>(printer: &mut Printer<ROOM>, sink: &mut K, n: Option<u64>)
    ensures { Prints K.written K.faults printer.old sink.old printer.new sink.new (maybe_cell n) }
{
    match n {
        Some(n) => number(printer, sink, n),
        None => printer.text(sink, b","),
    }
}

/// A period, where there is one.
pub(crate) fn period<K: Sink>(printer: &mut Printer<ROOM>, sink: &mut K, period: Option<u32>)
    ensures { Prints K.written K.faults printer.old sink.old printer.new sink.new
        (maybe_cell period) }
{
    match period {
        Some(period) => number(printer, sink, period as u64),
        None => printer.text(sink, b","),
    }
}

/// A number that may be below 0, where there is one.
pub(crate) fn signed<K: Sink>(printer: &mut Printer<ROOM>, sink: &mut K, n: Option<i64>)
    ensures { Prints K.written K.faults printer.old sink.old printer.new sink.new (signed_cell n) }
{
    match n {
        Some(n) => {
            printer.text(sink, b",");
            printer.signed(sink, n);
        }
        None => printer.text(sink, b","),
    }
}

/// A class.
pub(crate) fn class<K: Sink>(printer: &mut Printer<ROOM>, sink: &mut K, class: Class)
    ensures { Prints K.written K.faults printer.old sink.old printer.new sink.new
        (class_cell class) }
{
    printer.text(sink, &[b',', letter(class)]);
}

/// Yes or no.
pub(crate) fn whether<K: Sink>(printer: &mut Printer<ROOM>, sink: &mut K, is_so: bool)
    ensures { Prints K.written K.faults printer.old sink.old printer.new sink.new
        (whether_cell is_so) }
{
    if is_so {
        printer.text(sink, b",yes");
    } else {
        printer.text(sink, b",no");
    }
}
