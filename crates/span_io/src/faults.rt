//! Counts of a device's faults, which nothing but what a reader or a writer answered raises.
//!
//! Their numbers are seen here alone: a device has no other way to count a fault than to hand over
//! what was answered inside.
ghost use Rattle.std.specs.Prelude.{◌≡◌, ◌≤◌, Ok, IfOk};
ghost use Rattle.span_io.specs.Causes.{HasCause};

use crate::Failed;
use std::io;
use std::marker::Model;

/// How often a reader failed; the number stands still at 2^64 - 1.
#[derive(Drop)]
pub(crate) struct ReadFaults {
    count: u64,
}

impl Model for ReadFaults {
    ghost use Rattle.std.specs.Prelude.{ℕ};

    ghost Value = { ℕ };

    ghost view = { λ f. f.count };
}

impl ReadFaults {
    /// None yet.
    pub(crate) fn none() -> ReadFaults
        ensures { result ≡ 0 }
    {
        ReadFaults { count: 0 }
    }

    /// What a read is answered where the reader inside answered this: its count, or a failure,
    /// which is counted. A count of 0 is the end of the input, and no failure.
    pub(crate) fn answer(&mut self, inside: io::Result<usize>) -> Result<usize, Failed>
        ensures told { IfOk result (λ count. inside ≡ Ok count) }
        ensures asked { IfOk inside (λ count. result ≡ Ok count) }
        ensures cause { HasCause self.old self.new result }
    {
        match inside {
            Ok(count) => Ok(count),
            Err(_) => {
                self.count = self.count.saturating_add(1);
                Err(Failed)
            }
        }
    }
}

/// How often a writer failed; the number stands still at 2^64 - 1.
#[derive(Drop)]
pub(crate) struct WriteFaults {
    count: u64,
}

impl Model for WriteFaults {
    ghost use Rattle.std.specs.Prelude.{ℕ};

    ghost Value = { ℕ };

    ghost view = { λ f. f.count };
}

impl WriteFaults {
    /// None yet.
    pub(crate) fn none() -> WriteFaults
        ensures { result ≡ 0 }
    {
        WriteFaults { count: 0 }
    }

    /// What a write is answered where the writer inside answered this: its count, or a failure,
    /// which is counted. A writer that took nothing failed.
    pub(crate) fn answer(&mut self, inside: io::Result<usize>) -> Result<usize, Failed>
        ensures told { IfOk result (λ count. inside ≡ Ok count) }
        ensures some { IfOk result (λ count. 1 ≤ count) }
        ensures asked { IfOk inside (λ count. 1 ≤ count → result ≡ Ok count) }
        ensures cause { HasCause self.old self.new result }
    {
        match inside {
            Ok(count) if count > 0 => Ok(count),
            _ => {
                self.count = self.count.saturating_add(1);
                Err(Failed)
            }
        }
    }
}
