//! Writing a text whole.
ghost use Rattle.span_io.specs.Causes.{Writes};

use crate::{Failed, Sink};

/// Writes all of `bytes`.
///
/// # Errors
/// `Failed` comes only where the sink's count of faults rose, and a prefix of the bytes was written
/// then. An `Ok` leaves that count.
pub fn write_all<K: Sink>(sink: &mut K, bytes: &[u8]) -> Result<(), Failed>
    ensures { Writes (K.written sink.old) (K.written sink.new) (K.faults sink.old)
        (K.faults sink.new)
        bytes.now result }
{
    let mut at = 0;
    while at < bytes.len() {
        at += sink.write(&bytes[at..])?;
    }
    Ok(())
}
