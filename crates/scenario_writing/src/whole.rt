//! A scenario as a JSON value.
ghost use Rattle.std.specs.Prelude.{◌≡◌, ℤ, true, false, [], Some, None};
ghost use Rattle.std.specs.Prelude.{IfOk, OnOk, map, option_map, codes};
ghost use Rattle.serde_json.specs.Data.{object, string, put as with_member};
ghost use Rattle.serde_json.specs.View.{view, members_view};
ghost use Rattle.serde_json.specs.Find.{as_str};
ghost use Rattle.json_parts.specs.Reading.{whole, list_of, required, object_of};
ghost use Rattle.scenario.specs.Seen.{policy_view, channel_view, task_view};
ghost use Rattle.scenario.specs.Seen.{clock_view, parts_view};
ghost use Rattle.std.specs.List.{AllByRecursion};
ghost use Rattle.scenario.specs.Parts.ChannelParts.{state, sensor, copy};
ghost use Rattle.scenario_reading.specs.Keys.{policy_at, copy_names, copy_fields, channel_at};
ghost use Rattle.scenario_reading.specs.Keys.{task_key, clock_at, parts_read};
ghost use Rattle.scenario_versions.specs.Versions.{is_first, IsPolicyOf, IsChannelOf, IsOfVersion};
ghost use Rattle.scenario_writing.specs.Members.{put_some};

use crate::faults::{clock, faults, restarts};
use crate::lists::{number, numbers, rows};
use scenario::{ChannelPart, ClockPart, Parts, PolicyPart, TaskPart};
use serde_json::{Map, Value, put};
use std::alloc::{AllocError, Global};

/// Puts a value at a key, where there is one.
fn put_some(
    members: &mut Map<String, Value>,
    alloc: Global,
    key: &str,
    found: Option<Value>,
) -> Result<(), AllocError>
    ensures { OnOk result (members_view members.new.entries
        ≡ put_some key.now (option_map view found) (members_view members.old.entries)) }
{
    match found {
        Some(value) => put(members, alloc, key, value),
        None => Ok(()),
    }
}

/// Puts a text at a key.
fn put_text(
    members: &mut Map<String, Value>,
    alloc: Global,
    key: &str,
    text: &str,
) -> Result<(), AllocError>
    ensures { OnOk result (members_view members.new.entries
        ≡ with_member key.now (string text.now) (members_view members.old.entries)) }
{
    put(members, alloc, key, Value::try_from_str(alloc, text)?)
}

/// How often a node leaves before it retires. Version 1, where none does, has no word for it.
fn retirement(version: i64, retire: i64) -> Option<Value>
    ensures none { is_first version ≡ true → option_map view result ≡ None }
    ensures some { is_first version ≡ false
        → option_map whole (option_map view result) ≡ Some (Some retire) }
{
    if version == 1 {
        return None;
    }
    Some(number(retire))
}

/// The policy of a version.
fn policy(alloc: Global, version: i64, part: &PolicyPart) -> Result<Value, AllocError>
    requires { IsPolicyOf version (policy_view part.now) }
    ensures { IfOk result (λ v. policy_at version (view v) ≡ Some (policy_view part.now)) }
{
    let weights = numbers(alloc, part.weights.as_slice())?;
    let mut members = Map::new(alloc);
    put(&mut members, alloc, "weights", weights)?;
    put(&mut members, alloc, "exclude", number(part.exclude))?;
    put(&mut members, alloc, "readmit", number(part.readmit))?;
    put(&mut members, alloc, "credit", number(part.credit))?;
    put(&mut members, alloc, "streak", number(part.streak))?;
    put(&mut members, alloc, "cap", number(part.cap))?;
    put_some(
        &mut members,
        alloc,
        "retire",
        retirement(version, part.retire),
    )?;
    Ok(Value::Object(members))
}

/// A channel of a state that each node has.
fn state(alloc: Global, delta: i64, start: &[i64], step: i64) -> Result<Value, AllocError>
    ensures { (version : ℤ) → IfOk result (λ v. channel_at version (view v)
        ≡ Some (state delta start.now step)) }
{
    let mut members = Map::new(alloc);
    put_text(&mut members, alloc, "kind", "state")?;
    put(&mut members, alloc, "delta", number(delta))?;
    put(&mut members, alloc, "start", numbers(alloc, start)?)?;
    put(&mut members, alloc, "step", number(step))?;
    Ok(Value::Object(members))
}

/// A channel that nodes read.
fn sensor(
    alloc: Global,
    delta: i64,
    task: Option<i64>,
    readings: &[Vec<i64>],
) -> Result<Value, AllocError>
    ensures { (version : ℤ) → IfOk result (λ v. channel_at version (view v)
        ≡ Some (sensor delta task (map (λ row. row.items) readings.now))) }
{
    let mut members = Map::new(alloc);
    put_text(&mut members, alloc, "kind", "sensor")?;
    put(&mut members, alloc, "delta", number(delta))?;
    put(&mut members, alloc, "readings", rows(alloc, readings)?)?;
    put_some(&mut members, alloc, "task", maybe_number(task))?;
    Ok(Value::Object(members))
}

/// A channel of the results of a task's copies.
fn copy(
    alloc: Global,
    delta: i64,
    task: i64,
    lies: i64,
    readings: &[Vec<i64>],
) -> Result<Value, AllocError>
    ensures kind { IfOk result (λ v. required (codes "kind") as_str (view v)
        ≡ Some (codes "copy")) }
    ensures fields { IfOk result (λ v. object_of copy_names copy_fields (view v)
        ≡ Some (copy delta task lies (map (λ row. row.items) readings.now))) }
{
    let mut members = Map::new(alloc);
    put_text(&mut members, alloc, "kind", "copy")?;
    put(&mut members, alloc, "delta", number(delta))?;
    put(&mut members, alloc, "task", number(task))?;
    put(&mut members, alloc, "lies", number(lies))?;
    put(&mut members, alloc, "readings", rows(alloc, readings)?)?;
    Ok(Value::Object(members))
}

/// A channel of a version.
fn channel(alloc: Global, version: i64, part: &ChannelPart) -> Result<Value, AllocError>
    requires { IsChannelOf version (channel_view part.now) }
    ensures { IfOk result (λ v. channel_at version (view v) ≡ Some (channel_view part.now)) }
{
    match part {
        ChannelPart::State { delta, start, step } => state(alloc, *delta, start.as_slice(), *step),
        ChannelPart::Sensor {
            delta,
            task,
            readings,
        } => sensor(alloc, *delta, *task, readings.as_slice()),
        ChannelPart::Copy {
            delta,
            task,
            lies,
            readings,
        } => copy(alloc, *delta, *task, *lies, readings.as_slice()),
    }
}

/// The channels of a version.
fn channels(alloc: Global, version: i64, parts: &[ChannelPart]) -> Result<Value, AllocError>
    requires { AllByRecursion (IsChannelOf version) (map channel_view parts.now) }
    ensures { IfOk result (λ v. list_of (channel_at version) (view v)
        ≡ Some (map channel_view parts.now)) }
{
    let mut values = Vec::new(alloc);
    for part in parts {
        values.push(channel(alloc, version, part)?)?;
    }
    Ok(Value::Array(values))
}

/// Puts the members of a task into an empty object.
fn put_task(
    members: &mut Map<String, Value>,
    alloc: Global,
    part: &TaskPart,
) -> Result<(), AllocError>
    requires { members.old.entries ≡ [] }
    ensures { OnOk result (task_key (object (members_view members.new.entries))
        ≡ Some (task_view part.now)) }
{
    let after = numbers(alloc, part.after.as_slice())?;
    put(members, alloc, "after", after)?;
    let nodes = numbers(alloc, part.nodes.as_slice())?;
    put(members, alloc, "nodes", nodes)?;
    put(members, alloc, "need", number(part.need))?;
    put(members, alloc, "min", number(part.min))?;
    put(members, alloc, "max", number(part.max))?;
    put(members, alloc, "run", numbers(alloc, part.run.as_slice())?)?;
    Ok(())
}

/// A task.
fn task(alloc: Global, part: &TaskPart) -> Result<Value, AllocError>
    ensures { IfOk result (λ v. task_key (view v) ≡ Some (task_view part.now)) }
{
    let mut members = Map::new(alloc);
    put_task(&mut members, alloc, part)?;
    Ok(Value::Object(members))
}

/// The tasks.
fn tasks(alloc: Global, parts: &[TaskPart]) -> Result<Value, AllocError>
    ensures { IfOk result (λ v. list_of task_key (view v) ≡ Some (map task_view parts.now)) }
{
    let mut values = Vec::new(alloc);
    for part in parts {
        values.push(task(alloc, part)?)?;
    }
    Ok(Value::Array(values))
}

/// The number, where there is one.
fn maybe_number(found: Option<i64>) -> Option<Value>
    ensures { option_map whole (option_map view result) ≡ option_map Some found }
{
    match found {
        Some(n) => Some(number(n)),
        None => None,
    }
}

/// The clocks, where there are some.
fn maybe_clock(alloc: Global, found: &Option<ClockPart>) -> Result<Option<Value>, AllocError>
    ensures { IfOk result (λ clock. option_map clock_at (option_map view clock)
        ≡ option_map Some (option_map clock_view found.now)) }
{
    match found {
        Some(part) => Ok(Some(clock(alloc, part)?)),
        None => Ok(None),
    }
}

/// Puts the members of a scenario into an empty object.
fn put_parts(
    members: &mut Map<String, Value>,
    alloc: Global,
    parts: &Parts,
) -> Result<(), AllocError>
    requires version { IsOfVersion (parts_view parts.now) }
    requires empty { members.old.entries ≡ [] }
    ensures { OnOk result (parts_read (object (members_view members.new.entries))
        ≡ Some (parts_view parts.now)) }
{
    let version = parts.version;
    put(members, alloc, "version", number(version))?;
    put(members, alloc, "nodes", number(parts.nodes))?;
    put(members, alloc, "m", number(parts.m))?;
    put(members, alloc, "periods", number(parts.periods))?;
    let policy = policy(alloc, version, &parts.policy)?;
    put(members, alloc, "policy", policy)?;
    put(members, alloc, "order", number(parts.order))?;
    let channels = channels(alloc, version, parts.channels.as_slice())?;
    put(members, alloc, "channels", channels)?;
    let tasks = tasks(alloc, parts.tasks.as_slice())?;
    put(members, alloc, "tasks", tasks)?;
    let faults = faults(alloc, parts.faults.as_slice())?;
    put(members, alloc, "faults", faults)?;
    let restarts = restarts(alloc, parts.restarts.as_slice())?;
    put(members, alloc, "restarts", restarts)?;
    put_some(members, alloc, "frame", maybe_number(parts.frame))?;
    put_some(members, alloc, "clock", maybe_clock(alloc, &parts.clock)?)?;
    Ok(())
}

/// The JSON value of a scenario.
///
/// # Errors
/// `AllocError` where there is no memory.
pub fn value_of(alloc: Global, parts: &Parts) -> Result<Value, AllocError>
    requires { IsOfVersion (parts_view parts.now) }
    ensures { IfOk result (λ v. parts_read (view v) ≡ Some (parts_view parts.now)) }
{
    let mut members = Map::new(alloc);
    put_parts(&mut members, alloc, parts)?;
    Ok(Value::Object(members))
}
