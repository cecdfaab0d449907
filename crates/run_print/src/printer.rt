ghost use Rattle.std.specs.Fmt.{signed_decimal};
ghost use Rattle.std.specs.Prelude.{◌≡◌, ◌≤◌, ◌<◌, false, [], ◌∷◌, ◌++◌, decimal};
ghost use Rattle.run_print.specs.Printing.{Prints, Finishes};

use crate::WriteFault;
use crate::gathered::Gathered;
use itoa::Buffer;
use span_io::{Sink, write_all};

/// Room for the lines of a few nodes.
pub(crate) const SMALL: usize = 4096;

/// Room for the lines of frames, which are many and long.
pub const LARGE: usize = 65536;

/// The two digits of a number from 10 to 99.
pub(crate) fn two_digits(n: u8) -> [u8; 2]
    requires from { 10 ≤ n }
    requires below { n < 100 }
    ensures { result ≡ decimal n }
{
    [b'0' + n / 10, b'0' + n % 10]
}

/// Gathers the small pieces of a text before they go to a sink.
///
/// After a fault of the sink it drops what comes, and tells of the fault in the end. It takes no
/// memory.
#[derive(Drop)]
pub struct Printer<const ROOM: usize> {
    /// What isn't written yet.
    pub gathered: Gathered<ROOM>,
    /// Whether the sink failed.
    pub failed: bool,
}

impl<const ROOM: usize> Printer<ROOM> {
    /// A printer that has gathered nothing.
    pub fn new() -> Self
        ensures gathered { result.gathered ≡ [] }
        ensures failed { result.failed ≡ false }
    {
        Printer {
            gathered: Gathered::new(),
            failed: false,
        }
    }

    /// Prints a piece of text.
    pub fn text<K: Sink>(&mut self, sink: &mut K, bytes: &[u8])
        ensures { Prints K.written K.faults self.old sink.old self.new sink.new bytes.now }
    {
        if !self.gathered.extend(bytes) {
            self.text_behind(sink, bytes);
        }
    }

    /// Prints one byte.
    pub(crate) fn byte<K: Sink>(&mut self, sink: &mut K, byte: u8)
        ensures { Prints K.written K.faults self.old sink.old self.new sink.new (byte ∷ []) }
    {
        if !self.gathered.push(byte) {
            self.text_behind(sink, &[byte]);
        }
    }

    /// Prints a number in decimal.
    pub fn number<K: Sink>(&mut self, sink: &mut K, n: u64)
        ensures { Prints K.written K.faults self.old sink.old self.new sink.new (decimal n) }
    {
        if n < 10 {
            self.byte(sink, b'0' + n as u8);
        } else if n < 100 {
            self.text(sink, &two_digits(n as u8));
        } else {
            self.long_number(sink, n);
        }
    }

    /// Prints a number of any length in decimal.
    fn long_number<K: Sink>(&mut self, sink: &mut K, n: u64)
        ensures { Prints K.written K.faults self.old sink.old self.new sink.new (decimal n) }
    {
        let mut buffer = Buffer::new();
        self.text(sink, buffer.format(n).as_bytes());
    }

    /// Prints a label and the number behind it.
    pub fn labelled<K: Sink>(&mut self, sink: &mut K, label: &[u8], n: u64)
        ensures { Prints K.written K.faults self.old sink.old self.new sink.new
            (label.now ++ decimal n) }
    {
        self.text(sink, label);
        self.number(sink, n);
    }

    /// Prints a number with a sign in decimal.
    pub fn signed<K: Sink>(&mut self, sink: &mut K, n: i64)
        ensures { Prints K.written K.faults self.old sink.old self.new sink.new (signed_decimal n) }
    {
        let mut buffer = Buffer::new();
        self.text(sink, buffer.format(n).as_bytes());
    }

    /// Writes what is gathered, and tells whether the whole text reached the sink.
    pub fn finish<K: Sink>(&mut self, sink: &mut K) -> Result<(), WriteFault>
        ensures { Finishes K.written K.faults self.old sink.old sink.new result }
    {
        self.flush(sink);
        if self.failed { Err(WriteFault) } else { Ok(()) }
    }

    /// Writes what is gathered.
    fn flush<K: Sink>(&mut self, sink: &mut K)
        ensures prints { Prints K.written K.faults self.old sink.old self.new sink.new [] }
        ensures empty { self.new.gathered ≡ [] }
    {
        if !self.failed {
            self.failed = write_all(sink, self.gathered.as_slice()).is_err();
        }
        self.gathered.clear();
    }

    /// Prints a piece for which there is no room. It stays a function of its own, so that the short
    /// way of most pieces is written out where they are printed.
    #[inline(never)]
    fn text_behind<K: Sink>(&mut self, sink: &mut K, bytes: &[u8])
        ensures { Prints K.written K.faults self.old sink.old self.new sink.new bytes.now }
    {
        self.flush(sink);
        self.text_first(sink, bytes);
    }

    /// Prints a piece where nothing is gathered.
    fn text_first<K: Sink>(&mut self, sink: &mut K, bytes: &[u8])
        requires { self.old.gathered ≡ [] }
        ensures { Prints K.written K.faults self.old sink.old self.new sink.new bytes.now }
    {
        if !self.gathered.extend(bytes) && !self.failed {
            self.failed = write_all(sink, bytes).is_err();
        }
    }
}
