//! Bytes in and bytes out, over sources and sinks that tell their bytes and count their faults.
//!
//! A source or a sink may fail at any call. It says so only where its count of faults rose, and the
//! count rises in failing calls alone, so that whoever reads it knows whether the outside was
//! honest. Sources and sinks in memory tell their bytes; those over the real devices tell none.
#![tactic(auto)]

ghost use Rattle.std.specs.Prelude.{ℕ, ◌<◌, List, length, Option, IfOk};
ghost use Rattle.std.specs.Io.{ReadsAtMost};
ghost use Rattle.std.specs.Io.KnownBytes.{ReadConsumes, WriteAppends};
ghost use Rattle.span_io.specs.Causes.{HasCause, CountsGiven, IsOneTo};

mod devices;
mod faults;
mod memory;
mod reading;
mod writing;

pub use devices::{StdSink, StdSource};
pub use memory::{MemSink, MemSource};
pub use reading::{ReadError, read_all};
use thiserror::Error;
pub use writing::write_all;

/// A read or a write failed.
#[derive(Clone, Copy, Debug, PartialEq, Eq, Error)]
#[error("the device failed")]
pub struct Failed;

/// Where bytes come from.
pub trait Source {
    /// The bytes that are left, where the source tells them.
    ghost left: { Self → Option (List ℕ) };
    /// How many bytes it gave; the number stands still at 2^64 - 1.
    ghost given: { Self → ℕ };
    /// How often it failed; the number stands still at 2^64 - 1.
    ghost faults: { Self → ℕ };

    /// Puts the next bytes at the front of `buf`, and answers how many. Zero is the end of the
    /// input.
    ///
    /// # Errors
    /// `Failed` comes only where the count of faults rose, and an `Ok` leaves it. Nothing was taken
    /// then.
    fn read(&mut self, buf: &mut [u8]) -> Result<usize, Failed>
        requires { 0 < length buf.old }
        ensures bound { ReadsAtMost result buf.new }
        ensures bytes { ReadConsumes (left self.old) (left self.new) result buf.new }
        ensures given { CountsGiven (given self.old) (given self.new) result }
        ensures cause { HasCause (faults self.old) (faults self.new) result };
}

/// Where bytes go.
pub trait Sink {
    /// The bytes that were written, where the sink tells them.
    ghost written: { Self → Option (List ℕ) };
    /// How often it failed; the number stands still at 2^64 - 1.
    ghost faults: { Self → ℕ };

    /// Writes bytes from the front of `bytes`, at least one, and answers how many.
    ///
    /// # Errors
    /// `Failed` comes only where the count of faults rose, and an `Ok` leaves it. Nothing was
    /// written then.
    fn write(&mut self, bytes: &[u8]) -> Result<usize, Failed>
        requires { 0 < length bytes.now }
        ensures bound { IfOk result (IsOneTo (length bytes.now)) }
        ensures bytes { WriteAppends (written self.old) (written self.new) result bytes.now }
        ensures cause { HasCause (faults self.old) (faults self.new) result };
}
