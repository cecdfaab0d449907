//! What befalls nodes, as JSON values.
ghost use Rattle.std.specs.Prelude.{◌≡◌, [], Some, IfOk, OnOk, map};
ghost use Rattle.serde_json.specs.Data.{object, no_members, put};
ghost use Rattle.serde_json.specs.View.{view, members_view};
ghost use Rattle.json_parts.specs.Reading.{list_of};
ghost use Rattle.scenario.specs.Seen.{effect_view, fault_view, restart_view, lie_view, clock_view};
ghost use Rattle.scenario.specs.Parts.EffectParts.{set, raw};
ghost use Rattle.scenario_reading.specs.Keys.{effect_key, fault_at, restart_at, lie_key, clock_at};

use crate::lists::{all_or_numbers, number, numbers, rows};
use scenario::{ClockPart, EffectPart, FaultPart, LiePart, RestartPart};
use serde_json::{Map, Value, json, put};
use std::alloc::{AllocError, Global};

/// An object of one member.
fn lone(alloc: Global, key: &str, value: Value) -> Result<Value, AllocError>
    ensures { IfOk result (λ v. view v ≡ object (put key.now (view value) no_members)) }
{
    let mut members = Map::new(alloc);
    put(&mut members, alloc, key, value)?;
    Ok(Value::Object(members))
}

/// Bytes that are set in a frame.
fn bytes_set(alloc: Global, at: i64, hex: &str) -> Result<Value, AllocError>
    ensures { IfOk result (λ v. effect_key (view v) ≡ Some (set at hex.now)) }
{
    let fields = json!(in alloc; {"at": at, "hex": hex})?;
    lone(alloc, "set", fields)
}

/// A frame in the place of another.
fn frame(alloc: Global, hex: &str) -> Result<Value, AllocError>
    ensures { IfOk result (λ v. effect_key (view v) ≡ Some (raw hex.now)) }
{
    let text = Value::try_from_str(alloc, hex)?;
    lone(alloc, "raw", text)
}

/// What a fault line does to a frame.
fn effect(alloc: Global, part: &EffectPart) -> Result<Value, AllocError>
    ensures { IfOk result (λ v. effect_key (view v) ≡ Some (effect_view part.now)) }
{
    match part {
        EffectPart::Drop => json!(in alloc; "drop"),
        EffectPart::Twice => json!(in alloc; "twice"),
        EffectPart::Cut(bytes) => lone(alloc, "cut", number(*bytes)),
        EffectPart::Time(tick) => lone(alloc, "time", number(*tick)),
        EffectPart::Set { at, hex } => bytes_set(alloc, *at, hex.as_str()),
        EffectPart::Raw(hex) => frame(alloc, hex.as_str()),
    }
}

/// Puts the members of a fault line into an empty object.
fn put_fault(
    members: &mut Map<String, Value>,
    alloc: Global,
    part: &FaultPart,
) -> Result<(), AllocError>
    requires { members.old.entries ≡ [] }
    ensures { OnOk result (fault_at (object (members_view members.new.entries))
        ≡ Some (fault_view part.now)) }
{
    put(members, alloc, "from", number(part.from))?;
    put(members, alloc, "to", all_or_numbers(alloc, &part.to)?)?;
    let periods = numbers(alloc, part.periods.as_slice())?;
    put(members, alloc, "periods", periods)?;
    put(members, alloc, "slots", all_or_numbers(alloc, &part.slots)?)?;
    put(members, alloc, "effect", effect(alloc, &part.effect)?)?;
    Ok(())
}

/// A fault line.
fn fault(alloc: Global, part: &FaultPart) -> Result<Value, AllocError>
    ensures { IfOk result (λ v. fault_at (view v) ≡ Some (fault_view part.now)) }
{
    let mut members = Map::new(alloc);
    put_fault(&mut members, alloc, part)?;
    Ok(Value::Object(members))
}

/// The fault lines.
pub(crate) fn faults(alloc: Global, parts: &[FaultPart]) -> Result<Value, AllocError>
    ensures { IfOk result (λ v. list_of fault_at (view v) ≡ Some (map fault_view parts.now)) }
{
    let mut values = Vec::new(alloc);
    for part in parts {
        values.push(fault(alloc, part)?)?;
    }
    Ok(Value::Array(values))
}

/// A restart.
fn restart(alloc: Global, part: &RestartPart) -> Result<Value, AllocError>
    ensures { IfOk result (λ v. restart_at (view v) ≡ Some (restart_view part.now)) }
{
    json!(in alloc; {"node": part.node, "period": part.period})
}

/// The restarts.
pub(crate) fn restarts(alloc: Global, parts: &[RestartPart]) -> Result<Value, AllocError>
    ensures { IfOk result (λ v. list_of restart_at (view v) ≡ Some (map restart_view parts.now)) }
{
    let mut values = Vec::new(alloc);
    for part in parts {
        values.push(restart(alloc, part)?)?;
    }
    Ok(Value::Array(values))
}

/// Puts the members of a lie about a clock into an empty object.
fn put_lie(
    members: &mut Map<String, Value>,
    alloc: Global,
    part: &LiePart,
) -> Result<(), AllocError>
    requires { members.old.entries ≡ [] }
    ensures { OnOk result (lie_key (object (members_view members.new.entries))
        ≡ Some (lie_view part.now)) }
{
    put(members, alloc, "from", number(part.from))?;
    put(members, alloc, "to", all_or_numbers(alloc, &part.to)?)?;
    let periods = numbers(alloc, part.periods.as_slice())?;
    put(members, alloc, "periods", periods)?;
    put(members, alloc, "by", number(part.by))?;
    Ok(())
}

/// A lie about a clock.
fn lie(alloc: Global, part: &LiePart) -> Result<Value, AllocError>
    ensures { IfOk result (λ v. lie_key (view v) ≡ Some (lie_view part.now)) }
{
    let mut members = Map::new(alloc);
    put_lie(&mut members, alloc, part)?;
    Ok(Value::Object(members))
}

/// The lies about clocks.
fn lies(alloc: Global, parts: &[LiePart]) -> Result<Value, AllocError>
    ensures { IfOk result (λ v. list_of lie_key (view v) ≡ Some (map lie_view parts.now)) }
{
    let mut values = Vec::new(alloc);
    for part in parts {
        values.push(lie(alloc, part)?)?;
    }
    Ok(Value::Array(values))
}

/// Puts the members of the clocks into an empty object.
fn put_clock(
    members: &mut Map<String, Value>,
    alloc: Global,
    part: &ClockPart,
) -> Result<(), AllocError>
    requires { members.old.entries ≡ [] }
    ensures { OnOk result (clock_at (object (members_view members.new.entries))
        ≡ Some (clock_view part.now)) }
{
    put(members, alloc, "epsilon", number(part.epsilon))?;
    put(members, alloc, "drift", number(part.drift))?;
    let start = numbers(alloc, part.start.as_slice())?;
    put(members, alloc, "start", start)?;
    let drifts = rows(alloc, part.drifts.as_slice())?;
    put(members, alloc, "drifts", drifts)?;
    let errors = rows(alloc, part.errors.as_slice())?;
    put(members, alloc, "errors", errors)?;
    put(members, alloc, "lies", lies(alloc, part.lies.as_slice())?)?;
    Ok(())
}

/// The clocks.
pub(crate) fn clock(alloc: Global, part: &ClockPart) -> Result<Value, AllocError>
    ensures { IfOk result (λ v. clock_at (view v) ≡ Some (clock_view part.now)) }
{
    let mut members = Map::new(alloc);
    put_clock(&mut members, alloc, part)?;
    Ok(Value::Object(members))
}
