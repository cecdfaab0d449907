use std::error::Error;
use std::fmt;

/// Why a list of lines and restarts is no plan. Places count from 0.
#[derive(Clone, Copy, Drop)]
pub enum PlanError {
    /// The line at this place is out of range.
    Range(u32),
    /// The line at this place shares a link, a period and a slot with a line before it.
    Overlap(u32),
    /// The restart at this place is out of range, or doesn't come after the one before it.
    Restart(u32),
    /// There are more than 4,096 lines.
    TooMany,
    /// There was no memory for the plan's tables.
    NoMemory,
}

impl PlanError {
    /// What is wrong, without the place.
    fn text(&self) -> &'static str {
        match self {
            PlanError::Range(_) => "a fault line is out of range",
            PlanError::Overlap(_) => "a fault line overlaps a line before it",
            PlanError::Restart(_) => "a restart is out of range or out of order",
            PlanError::TooMany => "more than 4096 fault lines",
            PlanError::NoMemory => "out of memory",
        }
    }
}

impl fmt::Display for PlanError {
    fn fmt<W: fmt::Write>(&self, f: &mut fmt::Formatter<W>) -> fmt::Result {
        f.write_str(self.text())
    }
}

// The same text.
impl fmt::Debug for PlanError {
    fn fmt<W: fmt::Write>(&self, f: &mut fmt::Formatter<W>) -> fmt::Result {
        f.write_str(self.text())
    }
}

impl Error for PlanError {}
