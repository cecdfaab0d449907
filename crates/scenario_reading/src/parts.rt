//! From a JSON value to the parts of a scenario.
//!
//! Each call answers `NoPart` where a key is missing, unknown or of another type, or a text is
//! another one, and `NoMemory` where there is none.
ghost use Rattle.std.specs.Prelude.{◌≡◌, not, None, pos, map, option_map};
ghost use Rattle.std.specs.Ordering.{int_eq};
ghost use Rattle.json_parts.specs.Meaning.{view};
ghost use Rattle.json_parts.specs.Part.{Gives};
ghost use Rattle.scenario.specs.Parts.{Numbers as NumbersAre, EffectParts, FaultParts};
ghost use Rattle.scenario.specs.Parts.{RestartParts, PolicyParts, ChannelParts, TaskParts};
ghost use Rattle.scenario.specs.Parts.{LieParts, ClockParts};
ghost use Rattle.json_parts.specs.Reading.{object_of, has_keys};
ghost use Rattle.scenario_reading.specs.Keys.{policy_names, policy_fields, policy_at, state_names};
ghost use Rattle.scenario_reading.specs.Keys.{state_fields, sensor_names, sensor_fields};
ghost use Rattle.scenario_reading.specs.Keys.{copy_names, copy_fields, channel_at, task_key};
ghost use Rattle.scenario_reading.specs.Keys.{numbers_at, set_names, set_fields, effect_by};
ghost use Rattle.scenario_reading.specs.Keys.{effect_key, fault_at, restart_at, lie_key, clock_at};
ghost use Rattle.scenario_reading.specs.Keys.{scenario_names, parts_in, parts_read};
ghost use Rattle.scenario_reading.specs.Pieces.{size_fields, policy_in, channels_in, tasks_in};
ghost use Rattle.scenario_reading.specs.Pieces.{faults_in, restarts_in, clock_key, other_fields};
ghost use Rattle.scenario_reading.specs.Pieces.{pieces_in};
ghost use Rattle.scenario.specs.Seen.{numbers_view, effect_view, fault_view, restart_view};
ghost use Rattle.scenario.specs.Seen.{policy_view, channel_view, task_view, lie_view, clock_view};
ghost use Rattle.scenario.specs.Seen.{parts_view};
ghost use Rattle.scenario_reading.specs.Sizes.{sizes_view};

use json::Value;
use json_parts::{
    Form, Number, Numbers, PartError, Text, has_keys, lone, member, number_or, optional,
    optional_list, required, required_list, text,
};
use scenario::{
    ChannelPart, ClockPart, EffectPart, FaultPart, LiePart, NumbersPart, Parts, PolicyPart,
    RestartPart, TaskPart,
};
use std::alloc::Global;

/// Whether the keys and texts of version 2 are known.
fn knows_more(version: i64) -> bool
    ensures { result ≡ not (int_eq version (pos 1)) }
{
    version != 1
}

/// The text `"all"` or a list of numbers.
struct AllOrNumbers;

impl<'a> Form<'a> for AllOrNumbers {
    type Part = NumbersPart;

    ghost Meaning = { NumbersAre };

    ghost seen = { λ part. numbers_view part };

    ghost reads = { λ _ d. numbers_at d };

    fn read(&self, alloc: Global, value: &Value<'a>) -> Result<NumbersPart, PartError> {
        match text(value) {
            Some("all") => Ok(NumbersPart::All),
            Some(_) => Err(PartError::NoPart),
            None => Ok(NumbersPart::These(Numbers.read(alloc, value)?)),
        }
    }
}

// ---- the policy

fn has_policy_names(value: &Value<'_>, version: i64) -> bool
    ensures { result ≡ has_keys (policy_names version) (view value.now) }
{
    let names = [
        "weights", "exclude", "readmit", "credit", "streak", "cap", "retire",
    ];
    if knows_more(version) {
        has_keys(value, &names)
    } else {
        has_keys(value, &names[..6])
    }
}

fn policy_of_fields(alloc: Global, value: &Value<'_>) -> Result<PolicyPart, PartError>
    ensures { Gives policy_view (policy_fields (view value.now)) result }
{
    Ok(PolicyPart {
        weights: required(alloc, &Numbers, value, "weights")?,
        exclude: required(alloc, &Number, value, "exclude")?,
        readmit: required(alloc, &Number, value, "readmit")?,
        credit: required(alloc, &Number, value, "credit")?,
        streak: required(alloc, &Number, value, "streak")?,
        cap: required(alloc, &Number, value, "cap")?,
        retire: number_or(value, "retire", 0)?,
    })
}

/// The policy of a version.
#[derive(Clone, Copy)]
struct PolicyForm {
    version: i64,
}

impl<'a> Form<'a> for PolicyForm {
    type Part = PolicyPart;

    ghost Meaning = { PolicyParts };

    ghost seen = { λ part. policy_view part };

    ghost reads = { λ form d. policy_at form.version d };

    fn read(&self, alloc: Global, value: &Value<'a>) -> Result<PolicyPart, PartError> {
        if has_policy_names(value, self.version) {
            policy_of_fields(alloc, value)
        } else {
            Err(PartError::NoPart)
        }
    }
}

#[tactic(auto, unfolding(crate::specs::Pieces::policy_in))]
fn policy(alloc: Global, value: &Value<'_>, version: i64) -> Result<PolicyPart, PartError>
    ensures { Gives policy_view (policy_in version (view value.now)) result }
{
    required(alloc, &PolicyForm { version }, value, "policy")
}

// ---- channels

fn state(alloc: Global, value: &Value<'_>) -> Result<ChannelPart, PartError>
    ensures { Gives channel_view (object_of state_names state_fields (view value.now)) result }
{
    if !has_keys(value, &["kind", "delta", "start", "step"]) {
        return Err(PartError::NoPart);
    }
    Ok(ChannelPart::State {
        delta: required(alloc, &Number, value, "delta")?,
        start: required(alloc, &Numbers, value, "start")?,
        step: required(alloc, &Number, value, "step")?,
    })
}

fn sensor(alloc: Global, value: &Value<'_>) -> Result<ChannelPart, PartError>
    ensures { Gives channel_view (object_of sensor_names sensor_fields (view value.now)) result }
{
    if !has_keys(value, &["kind", "delta", "readings", "task"]) {
        return Err(PartError::NoPart);
    }
    Ok(ChannelPart::Sensor {
        delta: required(alloc, &Number, value, "delta")?,
        task: optional(alloc, &Number, value, "task")?,
        readings: required_list(alloc, &Numbers, value, "readings")?,
    })
}

fn copy(alloc: Global, value: &Value<'_>) -> Result<ChannelPart, PartError>
    ensures { Gives channel_view (object_of copy_names copy_fields (view value.now)) result }
{
    if !has_keys(value, &["kind", "delta", "task", "lies", "readings"]) {
        return Err(PartError::NoPart);
    }
    Ok(ChannelPart::Copy {
        delta: required(alloc, &Number, value, "delta")?,
        task: required(alloc, &Number, value, "task")?,
        lies: required(alloc, &Number, value, "lies")?,
        readings: required_list(alloc, &Numbers, value, "readings")?,
    })
}

/// A channel of a version.
#[derive(Clone, Copy)]
struct ChannelForm {
    version: i64,
}

impl<'a> Form<'a> for ChannelForm {
    type Part = ChannelPart;

    ghost Meaning = { ChannelParts };

    ghost seen = { λ part. channel_view part };

    ghost reads = { λ form d. channel_at form.version d };

    fn read(&self, alloc: Global, value: &Value<'a>) -> Result<ChannelPart, PartError> {
        let kind = member(value, "kind").ok_or(PartError::NoPart)?;
        match text(kind) {
            Some("state") => state(alloc, value),
            Some("sensor") => sensor(alloc, value),
            Some("copy") if knows_more(self.version) => copy(alloc, value),
            _ => Err(PartError::NoPart),
        }
    }
}

#[tactic(auto, unfolding(crate::specs::Pieces::channels_in))]
fn channels(alloc: Global, value: &Value<'_>, version: i64) -> Result<Vec<ChannelPart>, PartError>
    ensures { Gives (λ v. map channel_view v.items) (channels_in version (view value.now)) result }
{
    optional_list(alloc, &ChannelForm { version }, value, "channels")
}

// ---- tasks

/// A task.
struct TaskForm;

impl<'a> Form<'a> for TaskForm {
    type Part = TaskPart;

    ghost Meaning = { TaskParts };

    ghost seen = { λ part. task_view part };

    ghost reads = { λ _ d. task_key d };

    fn read(&self, alloc: Global, value: &Value<'a>) -> Result<TaskPart, PartError> {
        if !has_keys(value, &["after", "nodes", "need", "min", "max", "run"]) {
            return Err(PartError::NoPart);
        }
        Ok(TaskPart {
            need: required(alloc, &Number, value, "need")?,
            min: required(alloc, &Number, value, "min")?,
            max: required(alloc, &Number, value, "max")?,
            after: required(alloc, &Numbers, value, "after")?,
            nodes: required(alloc, &Numbers, value, "nodes")?,
            run: required(alloc, &Numbers, value, "run")?,
        })
    }
}

#[tactic(auto, unfolding(crate::specs::Pieces::tasks_in))]
fn tasks(alloc: Global, value: &Value<'_>) -> Result<Vec<TaskPart>, PartError>
    ensures { Gives (λ v. map task_view v.items) (tasks_in (view value.now)) result }
{
    optional_list(alloc, &TaskForm, value, "tasks")
}

// ---- fault lines

/// The bytes that an effect sets.
struct SetForm;

impl<'a> Form<'a> for SetForm {
    type Part = EffectPart;

    ghost Meaning = { EffectParts };

    ghost seen = { λ part. effect_view part };

    ghost reads = { λ _ d. object_of set_names set_fields d };

    fn read(&self, alloc: Global, value: &Value<'a>) -> Result<EffectPart, PartError> {
        if !has_keys(value, &["at", "hex"]) {
            return Err(PartError::NoPart);
        }
        Ok(EffectPart::Set {
            at: required(alloc, &Number, value, "at")?,
            hex: required(alloc, &Text, value, "hex")?,
        })
    }
}

/// An effect that is an object.
fn effect_of_object(alloc: Global, value: &Value<'_>) -> Result<EffectPart, PartError>
    ensures { Gives effect_view (effect_by (view value.now) None) result }
{
    if let Some(count) = lone(alloc, &Number, value, "cut")? {
        return Ok(EffectPart::Cut(count));
    }
    if let Some(tick) = lone(alloc, &Number, value, "time")? {
        return Ok(EffectPart::Time(tick));
    }
    if let Some(set) = lone(alloc, &SetForm, value, "set")? {
        return Ok(set);
    }
    let hex = lone(alloc, &Text, value, "raw")?;
    Ok(EffectPart::Raw(hex.ok_or(PartError::NoPart)?))
}

/// What a fault line does.
struct EffectForm;

impl<'a> Form<'a> for EffectForm {
    type Part = EffectPart;

    ghost Meaning = { EffectParts };

    ghost seen = { λ part. effect_view part };

    ghost reads = { λ _ d. effect_key d };

    fn read(&self, alloc: Global, value: &Value<'a>) -> Result<EffectPart, PartError> {
        match text(value) {
            Some("drop") => Ok(EffectPart::Drop),
            Some("twice") => Ok(EffectPart::Twice),
            Some(_) => Err(PartError::NoPart),
            None => effect_of_object(alloc, value),
        }
    }
}

/// A fault line.
struct FaultForm;

impl<'a> Form<'a> for FaultForm {
    type Part = FaultPart;

    ghost Meaning = { FaultParts };

    ghost seen = { λ part. fault_view part };

    ghost reads = { λ _ d. fault_at d };

    fn read(&self, alloc: Global, value: &Value<'a>) -> Result<FaultPart, PartError> {
        if !has_keys(value, &["from", "to", "periods", "slots", "effect"]) {
            return Err(PartError::NoPart);
        }
        Ok(FaultPart {
            from: required(alloc, &Number, value, "from")?,
            to: required(alloc, &AllOrNumbers, value, "to")?,
            periods: required(alloc, &Numbers, value, "periods")?,
            slots: required(alloc, &AllOrNumbers, value, "slots")?,
            effect: required(alloc, &EffectForm, value, "effect")?,
        })
    }
}

#[tactic(auto, unfolding(crate::specs::Pieces::faults_in))]
fn faults(alloc: Global, value: &Value<'_>) -> Result<Vec<FaultPart>, PartError>
    ensures { Gives (λ v. map fault_view v.items) (faults_in (view value.now)) result }
{
    optional_list(alloc, &FaultForm, value, "faults")
}

// ---- restarts

/// A restart.
struct RestartForm;

impl<'a> Form<'a> for RestartForm {
    type Part = RestartPart;

    ghost Meaning = { RestartParts };

    ghost seen = { λ part. restart_view part };

    ghost reads = { λ _ d. restart_at d };

    fn read(&self, alloc: Global, value: &Value<'a>) -> Result<RestartPart, PartError> {
        if !has_keys(value, &["node", "period"]) {
            return Err(PartError::NoPart);
        }
        Ok(RestartPart {
            node: required(alloc, &Number, value, "node")?,
            period: required(alloc, &Number, value, "period")?,
        })
    }
}

#[tactic(auto, unfolding(crate::specs::Pieces::restarts_in))]
fn restarts(alloc: Global, value: &Value<'_>) -> Result<Vec<RestartPart>, PartError>
    ensures { Gives (λ v. map restart_view v.items) (restarts_in (view value.now)) result }
{
    optional_list(alloc, &RestartForm, value, "restarts")
}

// ---- the clock

/// A lie about a clock.
struct LieForm;

impl<'a> Form<'a> for LieForm {
    type Part = LiePart;

    ghost Meaning = { LieParts };

    ghost seen = { λ part. lie_view part };

    ghost reads = { λ _ d. lie_key d };

    fn read(&self, alloc: Global, value: &Value<'a>) -> Result<LiePart, PartError> {
        if !has_keys(value, &["from", "to", "periods", "by"]) {
            return Err(PartError::NoPart);
        }
        Ok(LiePart {
            from: required(alloc, &Number, value, "from")?,
            to: required(alloc, &AllOrNumbers, value, "to")?,
            periods: required(alloc, &Numbers, value, "periods")?,
            by: required(alloc, &Number, value, "by")?,
        })
    }
}

/// The clocks.
struct ClockForm;

impl<'a> Form<'a> for ClockForm {
    type Part = ClockPart;

    ghost Meaning = { ClockParts };

    ghost seen = { λ part. clock_view part };

    ghost reads = { λ _ d. clock_at d };

    fn read(&self, alloc: Global, value: &Value<'a>) -> Result<ClockPart, PartError> {
        if !has_keys(
            value,
            &["epsilon", "drift", "start", "drifts", "errors", "lies"],
        ) {
            return Err(PartError::NoPart);
        }
        Ok(ClockPart {
            epsilon: required(alloc, &Number, value, "epsilon")?,
            drift: required(alloc, &Number, value, "drift")?,
            start: required(alloc, &Numbers, value, "start")?,
            drifts: required_list(alloc, &Numbers, value, "drifts")?,
            errors: required_list(alloc, &Numbers, value, "errors")?,
            lies: required_list(alloc, &LieForm, value, "lies")?,
        })
    }
}

#[tactic(auto, unfolding(crate::specs::Pieces::clock_key))]
fn clock(alloc: Global, value: &Value<'_>) -> Result<Option<ClockPart>, PartError>
    ensures { Gives (option_map clock_view) (clock_key (view value.now)) result }
{
    optional(alloc, &ClockForm, value, "clock")
}

// ---- the scenario

/// The numbers of the whole.
#[derive(Clone, Copy)]
struct Sizes {
    nodes: i64,
    m: i64,
    periods: i64,
    frame: Option<i64>,
    order: i64,
}

#[tactic(auto, unfolding(crate::specs::Pieces::size_fields))]
fn whole_sizes(alloc: Global, value: &Value<'_>) -> Result<Sizes, PartError>
    ensures { Gives sizes_view (size_fields (view value.now)) result }
{
    Ok(Sizes {
        nodes: required(alloc, &Number, value, "nodes")?,
        m: required(alloc, &Number, value, "m")?,
        periods: required(alloc, &Number, value, "periods")?,
        frame: optional(alloc, &Number, value, "frame")?,
        order: number_or(value, "order", 0)?,
    })
}

#[tactic(auto, unfolding(crate::specs::Pieces::other_fields))]
fn parts_of_sizes(
    alloc: Global,
    value: &Value<'_>,
    version: i64,
    sizes: Sizes,
) -> Result<Parts, PartError>
    ensures { Gives parts_view (other_fields version (view value.now) (sizes_view sizes)) result }
{
    Ok(Parts {
        version,
        nodes: sizes.nodes,
        m: sizes.m,
        periods: sizes.periods,
        policy: policy(alloc, value, version)?,
        frame: sizes.frame,
        order: sizes.order,
        channels: channels(alloc, value, version)?,
        tasks: tasks(alloc, value)?,
        faults: faults(alloc, value)?,
        restarts: restarts(alloc, value)?,
        clock: clock(alloc, value)?,
    })
}

fn parts_of_fields(alloc: Global, value: &Value<'_>, version: i64) -> Result<Parts, PartError>
    ensures { Gives parts_view (pieces_in version (view value.now)) result }
{
    let sizes = whole_sizes(alloc, value)?;
    parts_of_sizes(alloc, value, version, sizes)
}

fn has_scenario_names(value: &Value<'_>, version: i64) -> bool
    ensures { result ≡ has_keys (scenario_names version) (view value.now) }
{
    let names = [
        "version", "nodes", "m", "periods", "policy", "frame", "order", "channels", "tasks",
        "faults", "restarts", "clock",
    ];
    if knows_more(version) {
        has_keys(value, &names)
    } else {
        has_keys(value, &names[..11])
    }
}

#[tactic(auto, unfolding(crate::specs::Keys::parts_in))]
fn parts_in(alloc: Global, value: &Value<'_>, version: i64) -> Result<Parts, PartError>
    ensures { Gives parts_view (parts_in (view value.now) version) result }
{
    if has_scenario_names(value, version) {
        parts_of_fields(alloc, value, version)
    } else {
        Err(PartError::NoPart)
    }
}

/// The parts of the scenario that a JSON value holds. Which keys and texts are known is a matter of
/// its version.
///
/// # Errors
/// `NoPart` exactly where it holds none; `NoMemory`.
pub(crate) fn parts(alloc: Global, value: &Value<'_>) -> Result<Parts, PartError>
    ensures { Gives parts_view (parts_read (view value.now)) result }
{
    let version = number_or(value, "version", 1)?;
    parts_in(alloc, value, version)
}
