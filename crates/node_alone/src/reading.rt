//! From a JSON value to the parts of a record.

ghost use Rattle.std.specs.Prelude.{◌≡◌, option_map};
ghost use Rattle.json.specs.Value.{items_view};
ghost use Rattle.json_parts.specs.Meaning.{view, items_data};
ghost use Rattle.json_parts.specs.Part.{Gives};
ghost use Rattle.json_parts.specs.Reading.{required};
ghost use Rattle.node_alone.specs.Parts.{EntryParts, entry_of_items, entry_in, entry_at};
ghost use Rattle.node_alone.specs.Parts.{any_object, record_parts};
ghost use Rattle.node_alone.specs.Seen.{part_view, parts_view};

use json::Value;
use json_parts::{Form, PartError, has_keys, is_object, items, member, required_list, text, whole};
use std::alloc::Global;

/// An entry as it is written, before any rule on its numbers is tried.
#[derive(Drop)]
pub(crate) struct EntryPart<'a> {
    pub(crate) period: i64,
    pub(crate) slot: i64,
    pub(crate) from: i64,
    pub(crate) tick: i64,
    pub(crate) hex: &'a str,
}

/// The parts of a record: the scenario's value, and the entries.
#[derive(Drop)]
pub(crate) struct RecordPart<'v, 'a> {
    pub(crate) scenario: &'v Value<'a>,
    pub(crate) frames: Vec<EntryPart<'a>>,
}

/// The entry that five values are, where they are four numbers and a text.
fn entry_of<'a>(
    period: &Value<'a>,
    slot: &Value<'a>,
    from: &Value<'a>,
    tick: &Value<'a>,
    hex: &Value<'a>,
) -> Option<EntryPart<'a>>
    ensures { option_map part_view result
        ≡ entry_of_items (view period.now) (view slot.now) (view from.now) (view tick.now)
        (view hex.now) }
{
    Some(EntryPart {
        period: whole(period)?,
        slot: whole(slot)?,
        from: whole(from)?,
        tick: whole(tick)?,
        hex: text(hex)?,
    })
}

/// The entry that a list of values is, where it is four numbers and a text.
fn entry_in<'a>(items: &[Value<'a>]) -> Option<EntryPart<'a>>
    ensures { option_map part_view result ≡ entry_in (items_data (items_view items.now)) }
{
    if items.len() != 5 {
        return None;
    }
    let period = &items[0];
    let slot = &items[1];
    let from = &items[2];
    let tick = &items[3];
    let hex = &items[4];
    entry_of(period, slot, from, tick, hex)
}

/// An entry: a list of four numbers and a text.
struct EntryForm;

impl<'a> Form<'a> for EntryForm {
    type Part = EntryPart<'a>;

    ghost Meaning = { EntryParts };

    ghost seen = { λ part. part_view part };

    ghost reads = { λ _ d. entry_at d };

    fn read(&self, _alloc: Global, value: &Value<'a>) -> Result<EntryPart<'a>, PartError> {
        let items = items(value).ok_or(PartError::NoPart)?;
        entry_in(items).ok_or(PartError::NoPart)
    }
}

/// The object at a key, whatever its keys.
fn object_at<'v, 'a>(value: &'v Value<'a>, key: &str) -> Result<&'v Value<'a>, PartError>
    ensures { Gives (λ part. view part.now) (required key.now any_object (view value.now)) result }
{
    let found = member(value, key).ok_or(PartError::NoPart)?;
    if is_object(found) {
        Ok(found)
    } else {
        Err(PartError::NoPart)
    }
}

/// The parts of the record that a value is.
///
/// # Errors
/// `NoPart` exactly where it has other keys, or values of another type; `NoMemory`.
pub(crate) fn parts<'v, 'a>(
    alloc: Global,
    value: &'v Value<'a>,
) -> Result<RecordPart<'v, 'a>, PartError>
    ensures { Gives parts_view (record_parts (view value.now)) result }
{
    if !has_keys(value, &["scenario", "frames"]) {
        return Err(PartError::NoPart);
    }
    Ok(RecordPart {
        scenario: object_at(value, "scenario")?,
        frames: required_list(alloc, &EntryForm, value, "frames")?,
    })
}
