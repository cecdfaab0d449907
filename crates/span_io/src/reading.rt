//! Reading an input whole.
ghost use Rattle.std.specs.Prelude.{◌≡◌, ◌+◌, ◌^◌, ◌<◌, ◌≤◌, ◌⊎◌, length, OnOk, IfOk, IfSome};
ghost use Rattle.std.specs.Prelude.{IsErrOf};
ghost use Rattle.std.specs.Io.KnownBytes.{IsAtEnd};
ghost use Rattle.span_io.specs.Causes.{Rose, GivenPast, TakesSome, Takes};

use crate::Source;
use std::alloc::Global;
use std::error::Error;
use std::fmt;

/// Why an input was not read to its end.
#[derive(Clone, Copy, Debug, PartialEq, Eq)]
pub enum ReadError {
    /// The source failed.
    Failed,
    /// The source gave more bytes than the limit.
    TooLong,
    /// There was no memory for the bytes.
    NoMemory,
}

impl ReadError {
    fn text(&self) -> &'static str {
        match self {
            ReadError::Failed => "the device failed",
            ReadError::TooLong => "the input is too long",
            ReadError::NoMemory => "out of memory",
        }
    }
}

impl fmt::Display for ReadError {
    fn fmt<W: fmt::Write>(&self, f: &mut fmt::Formatter<W>) -> fmt::Result {
        f.write_str(self.text())
    }
}

impl Error for ReadError {}

const PIECE: usize = 4096;

/// All bytes up to the end of the input, which are at most `limit`.
///
/// # Errors
/// - `Failed` comes only where the source's count of faults rose, and the count changes in no other
///   case.
/// - `TooLong` comes where the source gave more than `limit` bytes and no read failed before.
///   `limit + 1` bytes were taken then.
/// - `NoMemory` may come at any time.
///
/// After an error bytes may have been taken: what is left then is a suffix of what was left.
pub fn read_all<S: Source>(
    alloc: Global,
    source: &mut S,
    limit: usize,
) -> Result<Vec<u8>, ReadError>
    requires { limit < 2 ^ 32 }
    ensures whole { IfOk result (λ bytes. IfSome (S.left source.old) (λ left. bytes.items ≡ left)) }
    ensures end { OnOk result (IsAtEnd (S.left source.new)) }
    ensures within { IfOk result (λ bytes. length bytes.items ≤ limit) }

    ensures failed { IsErrOf result ReadError.Failed →
        Rose (S.faults source.old) (S.faults source.new) }
    ensures later { S.faults source.old ≤ S.faults source.new }
    ensures faults { IsErrOf result ReadError.Failed ⊎ (S.faults source.new ≡ S.faults source.old) }

    // Where the source tells what is left, it was too long; and every source gave more than the
    // limit.
    ensures too_long { IsErrOf result ReadError.TooLong →
        Takes (limit + 1) (S.left source.old) (S.left source.new) }
    ensures too_long_given { IsErrOf result ReadError.TooLong →
        GivenPast limit (S.given source.old) (S.given source.new) }
    ensures taken { TakesSome (S.left source.old) (S.left source.new) }
{
    let mut bytes = Vec::new(alloc);
    let mut piece = [0u8; PIECE];
    loop {
        let room = PIECE.min(limit + 1 - bytes.len());
        let Ok(count) = source.read(&mut piece[..room]) else {
            return Err(ReadError::Failed);
        };
        if count == 0 {
            return Ok(bytes);
        }
        let Ok(()) = bytes.extend_from_slice(&piece[..count]) else {
            return Err(ReadError::NoMemory);
        };
        if bytes.len() > limit {
            return Err(ReadError::TooLong);
        }
    }
}
