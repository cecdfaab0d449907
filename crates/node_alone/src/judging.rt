//! The rules on the entries of a record.

ghost use Rattle.std.specs.Prelude.{◌≡◌, ◌≤◌, ◌<◌, pos, None, Some, IfOk, IfErr, option_map, map};
ghost use Rattle.std.specs.Prelude.{length, if◌then◌else◌};
ghost use Rattle.slot_plan.specs.Ticks.{last_tick};
ghost use Rattle.scenario.specs.Numbers.{is_between, is_below, natural};
ghost use Rattle.scenario.specs.Rules.{at_place};
ghost use Rattle.scenario.specs.Verdict.{Tells};
ghost use Rattle.node_alone.specs.Log.{is_before};
ghost use Rattle.node_alone.specs.Rules.{is_entry_placed, is_entry, entry_of, first_bad_entry};
ghost use Rattle.node_alone.specs.Seen.{part_view, limits_view, entry_view};

use crate::entry::Entry;
use crate::reading::EntryPart;
use crate::table::Table;
use scenario::{ScenarioError, bytes_of_hex};
use slot_plan::LAST_TICK;
use std::alloc::{AllocError, Global};

/// Which numbers an entry of node `id`'s log can have: those of nodes, slots and periods are below
/// these counts.
#[derive(Clone, Copy)]
pub(crate) struct Limits {
    pub(crate) nodes: u8,
    pub(crate) slots: u8,
    pub(crate) periods: u32,
    pub(crate) id: u8,
}

/// The refusal by a rule at a place; where the place is in no list that can be held, there is no
/// memory.
pub(crate) fn refused(rule: u8, place: usize) -> ScenarioError
    ensures { Tells (Some (rule, place)) result }
{
    match u32::try_from(place) {
        Ok(place) => ScenarioError::Refused { rule, place },
        Err(_) => ScenarioError::NoMemory,
    }
}

/// Whether the number is one of 0 to `bound - 1`.
fn is_below(number: i64, bound: usize) -> bool
    ensures { result ≡ is_below bound number }
{
    number >= 0 && (number as usize) < bound
}

/// The number, or 0 in place of a negative one.
fn natural(number: i64) -> usize
    ensures { result ≡ natural number }
{
    if number < 0 { 0 } else { number as usize }
}

/// Whether the number is a tick of a slot.
fn is_tick(number: i64) -> bool
    ensures { result ≡ is_between (pos 0) (pos last_tick) number }
{
    0 <= number && number <= LAST_TICK as i64
}

/// Whether an entry's numbers are in range.
fn is_placed(part: &EntryPart<'_>, nodes: u8, slots: u8, periods: u32, id: u8) -> bool
    ensures { result ≡ is_entry_placed (record {
      nodes = nodes;
      slots = slots;
      periods = periods;
      id = id;
    }) (part_view part.now) }
{
    is_below(part.period, periods as usize)
        && is_below(part.slot, slots as usize)
        && is_below(part.from, nodes as usize)
        && natural(part.from) != id as usize
        && is_tick(part.tick)
}

/// The entry that the parts are, where they are in range.
fn entry(alloc: Global, part: &EntryPart<'_>, limits: &Limits) -> Result<Option<Entry>, AllocError>
    ensures { IfOk result (λ o. option_map entry_view o
        ≡ (if is_entry (limits_view limits.now) (part_view part.now) then Some
        (entry_of (part_view part.now)) else None)) }
{
    if !is_placed(part, limits.nodes, limits.slots, limits.periods, limits.id) {
        return Ok(None);
    }
    let Some(bytes) = bytes_of_hex(alloc, part.hex)? else {
        return Ok(None);
    };
    Ok(Some(Entry {
        period: natural(part.period) as u32,
        slot: natural(part.slot) as u8,
        from: natural(part.from) as u8,
        tick: natural(part.tick) as u8,
        bytes,
    }))
}

/// Whether an entry is of an earlier slot.
fn is_before(entry: &Entry, period: u32, slot: u8) -> bool
    ensures { result ≡ is_before period slot (entry_view entry.now) }
{
    entry.period < period || entry.period == period && entry.slot < slot
}

/// The entries that the parts are, or the first that is out of range or goes back.
pub(crate) fn entries(
    alloc: Global,
    parts: &[EntryPart<'_>],
    limits: &Limits,
) -> Result<Table, ScenarioError>
    ensures accepted { IfOk result (λ v. first_bad_entry (limits_view limits.now) 0 0 0
        (map part_view parts.now) ≡ None) }
    ensures says { IfOk result (λ v. v ≡ map entry_of (map part_view parts.now)) }
    ensures refused { IfErr result (Tells
        (at_place 17 (first_bad_entry (limits_view limits.now) 0 0 0 (map part_view parts.now)))) }
{
    let Ok(mut found) = Table::with_capacity(alloc, parts.len()) else {
        return Err(ScenarioError::NoMemory);
    };
    // The slot of the entry before.
    let mut period = 0;
    let mut slot = 0;
    for (place, part) in parts.iter().enumerate() {
        let Ok(next) = entry(alloc, part, limits) else {
            return Err(ScenarioError::NoMemory);
        };
        let Some(entry) = next else {
            return Err(refused(17, place));
        };
        if is_before(&entry, period, slot) {
            return Err(refused(17, place));
        }
        period = entry.period;
        slot = entry.slot;
        let Ok(()) = found.push(&entry) else {
            return Err(ScenarioError::NoMemory);
        };
    }
    Ok(found)
}
