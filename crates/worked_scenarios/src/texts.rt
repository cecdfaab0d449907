//! The texts of errors.

use fault_classes::PlanError;
use scenario::ScenarioError;
use std::io;

pub fn print(rt: &HostRuntime) -> io::Result<()> {
    for error in [
        PlanError::Range(1),
        PlanError::Overlap(1),
        PlanError::Restart(1),
        PlanError::TooMany,
        PlanError::NoMemory,
    ] {
        println!(rt; "a plan: {error}, {error:?}")?;
    }
    for error in [
        ScenarioError::Unreadable,
        ScenarioError::Refused { rule: 9, place: 31 },
        ScenarioError::NoMemory,
    ] {
        println!(rt; "a scenario: {error}, {error:?}")?;
    }
    Ok(())
}
