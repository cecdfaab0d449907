//! Sources and sinks over the readers and writers of the standard library.
ghost use Rattle.std.specs.Prelude.{◌≡◌};

use crate::faults::{ReadFaults, WriteFaults};
use crate::{Failed, Sink, Source};
use std::io::{Read, Write};

/// A source over any reader.
#[derive(Drop)]
pub struct StdSource<R: Read> {
    inner: R,
    given: u64,
    faults: ReadFaults,
}

impl<R: Read> StdSource<R> {
    /// The source that gives what `inner` gives. It gave nothing yet, and never failed.
    pub fn new(inner: R) -> Self
        ensures left { ⟦<StdSource<R> as Source>⟧.left result ≡ R.remaining inner }
        ensures given { ⟦<StdSource<R> as Source>⟧.given result ≡ 0 }
        ensures faults { ⟦<StdSource<R> as Source>⟧.faults result ≡ 0 }
    {
        StdSource {
            inner,
            given: 0,
            faults: ReadFaults::none(),
        }
    }
}

impl<R: Read> Source for StdSource<R> {
    ghost left = { λ s. R.remaining s.inner };

    ghost given = { λ s. s.given };

    ghost faults = { λ s. s.faults };

    fn read(&mut self, buf: &mut [u8]) -> Result<usize, Failed> {
        let inside = self.inner.read(buf);
        let count = self.faults.answer(inside)?;
        self.given = self.given.saturating_add(count as u64);
        Ok(count)
    }
}

/// A sink over any writer. A writer that takes nothing of a piece has failed.
#[derive(Drop)]
pub struct StdSink<W: Write> {
    inner: W,
    faults: WriteFaults,
}

impl<W: Write> StdSink<W> {
    /// The sink that writes to `inner`. It never failed.
    pub fn new(inner: W) -> Self
        ensures written { ⟦<StdSink<W> as Sink>⟧.written result ≡ W.contents inner }
        ensures faults { ⟦<StdSink<W> as Sink>⟧.faults result ≡ 0 }
    {
        StdSink {
            inner,
            faults: WriteFaults::none(),
        }
    }
}

impl<W: Write> Sink for StdSink<W> {
    ghost written = { λ s. W.contents s.inner };

    ghost faults = { λ s. s.faults };

    fn write(&mut self, bytes: &[u8]) -> Result<usize, Failed> {
        let inside = self.inner.write(bytes);
        self.faults.answer(inside)
    }
}
