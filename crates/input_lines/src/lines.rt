//! The lines of a source.
ghost use Rattle.std.specs.Prelude.{◌≡◌, ◌^◌, ◌<◌, [], length, IfOk, OnOk, OnErr, IsTrue, ◌↔◌};
ghost use Rattle.input_lines.specs.Reading.{HasLimit, Takes, Reads, ReadsLine};

use crate::buffer::Buffer;
use node_grid::NoMemory;
use span_io::Source;
use std::alloc::Global;
use std::error::Error;
use std::fmt;
use std::marker::Model;

/// Why no line was taken, or nothing was read.
#[derive(Clone, Copy, Debug, PartialEq, Eq)]
pub enum LineError {
    /// The source failed.
    Failed,
    /// A line has more bytes than there may be.
    TooLong,
    /// There was no memory.
    NoMemory,
}

impl LineError {
    fn text(&self) -> &'static str {
        match self {
            LineError::Failed => "the device failed",
            LineError::TooLong => "a line is too long",
            LineError::NoMemory => "out of memory",
        }
    }
}

impl fmt::Display for LineError {
    fn fmt<W: fmt::Write>(&self, f: &mut fmt::Formatter<W>) -> fmt::Result {
        f.write_str(self.text())
    }
}

impl Error for LineError {}

/// The lines of an input, which are read and taken one after another.
#[derive(Drop)]
pub struct Lines {
    buffer: Buffer,
    /// The place of the line that was taken last: its first byte, and the one behind it.
    from: usize,
    to: usize,
    /// The most bytes that a line may have.
    limit: usize,
}

impl Model for Lines {
    ghost use Rattle.std.specs.Prelude.{◌≤◌, length, slice_range};
    ghost use Rattle.input_lines.specs.Reading.{LinesView};

    ghost Value = { LinesView };

    ghost use Rattle.input_lines.specs.Buffer.{unread, IsBuffer};

    ghost view = { λ l. record {
      rest = unread l.buffer;
      line = slice_range l.buffer.bytes.items l.from l.to;
      limit = l.limit;
      room = length l.buffer.bytes.items;
    } };

    ghost invariant = { λ l. IsBuffer l.buffer
        × (l.from ≤ l.to) × (l.to ≤ length l.buffer.bytes.items) };
}

impl Lines {
    /// The lines of an input of which nothing was read, of at most `limit` bytes each.
    ///
    /// # Errors
    /// `NoMemory` where there is none for the first 65,536 bytes.
    pub fn open(alloc: Global, limit: usize) -> Result<Lines, NoMemory>
        ensures { IfOk result (λ lines.
            lines ≡ record { rest = []; line = []; limit = limit; room = 65536 }) }
    {
        let buffer = Buffer::open(alloc)?;
        Ok(Lines {
            buffer,
            from: 0,
            to: 0,
            limit,
        })
    }

    /// From now on a line may have at most `limit` bytes, and there is room for one and its line
    /// feed. So where all lines are taken before each read, no read wants memory.
    ///
    /// # Errors
    /// `NoMemory` where there is none. Nothing changes then.
    pub fn set_limit(&mut self, limit: usize) -> Result<(), NoMemory>
        requires { limit < 2 ^ 32 }
        ensures ok { OnOk result (HasLimit limit self.old self.new) }
        ensures err { OnErr result (self.new ≡ self.old) }
    {
        self.buffer.grow(limit + 1)?;
        self.limit = limit;
        Ok(())
    }

    /// Takes the next line of what was read, and tells whether there is one.
    ///
    /// # Errors `TooLong`, and no other, where more bytes than the limit come before the next line
    /// feed, or come and there is none. Nothing is taken then.
    pub fn take(&mut self) -> Result<bool, LineError>
        ensures { Takes self.old self.new result }
    {
        let feed = self.buffer.find();
        let to = match feed {
            Some(place) => place,
            None => self.buffer.end,
        };
        if to - self.buffer.next > self.limit {
            return Err(LineError::TooLong);
        }
        if feed.is_none() {
            return Ok(false);
        }
        self.from = self.buffer.next;
        self.to = to;
        self.buffer.pass(to + 1);
        Ok(true)
    }

    /// Takes all that was read and was not taken, and tells whether that is anything.
    pub fn take_rest(&mut self) -> bool
        ensures taken { self.new ≡ record self.old { rest = []; line = self.old.rest } }
        ensures any { IsTrue result ↔ (0 < length self.old.rest) }
    {
        self.from = self.buffer.next;
        self.to = self.buffer.end;
        self.buffer.pass(self.to);
        self.from < self.to
    }

    /// The line that was taken last; nothing, where none was taken since the last read.
    pub fn line(&self) -> &[u8]
        ensures { result.now ≡ self.now.line }
    {
        &self.buffer.bytes[self.from..self.to]
    }

    /// Reads more, and tells whether more was given; no more is the end of the input. The line that
    /// was taken last is forgotten.
    ///
    /// # Errors `Failed` where the source failed. `NoMemory` where there is none and the rest fills
    /// the room: nothing was read then.
    pub fn read<S: Source>(&mut self, source: &mut S) -> Result<bool, LineError>
        ensures { Reads self.old self.new
            (record {
              left = S.left source.old;
              given = S.given source.old;
              faults = S.faults source.old;
            })
            (record {
              left = S.left source.new;
              given = S.given source.new;
              faults = S.faults source.new;
            })
            result }
    {
        self.from = 0;
        self.to = 0;
        let Ok(()) = self.buffer.make_room() else {
            return Err(LineError::NoMemory);
        };
        let Ok(count) = self.buffer.read(source) else {
            return Err(LineError::Failed);
        };
        if count == 0 {
            return Ok(false);
        }
        Ok(true)
    }

    /// Reads until the next line is whole, and takes it; where the input ends before, what was not
    /// taken is the line. Tells whether a line feed stood behind it.
    ///
    /// # Errors `TooLong` where more bytes than the limit come before a line feed, `Failed` where
    /// the source failed before one came, and `NoMemory`. Nothing is taken then.
    pub fn read_line<S: Source>(&mut self, source: &mut S) -> Result<bool, LineError>
        ensures { ReadsLine self.old self.new
            (record {
              left = S.left source.old;
              given = S.given source.old;
              faults = S.faults source.old;
            })
            (record {
              left = S.left source.new;
              given = S.given source.new;
              faults = S.faults source.new;
            })
            result }
    {
        'reads: while !self.take()? {
            if !self.read(source)? {
                self.take_rest();
                return Ok(false);
            }
        }
        Ok(true)
    }
}
