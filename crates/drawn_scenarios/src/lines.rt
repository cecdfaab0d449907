//! The fault lines, restarts and lies of bouts, as parts of a scenario.
ghost use Rattle.std.specs.Prelude.{◌≡◌, ◌<◌, ◌≤◌, ◌++◌, ◌∷◌, [], map, IfOk, OnOk};
ghost use Rattle.std.specs.List.{flat_map};
ghost use Rattle.scenario.specs.Seen.{numbers_view, effect_view, fault_view, restart_view};
ghost use Rattle.scenario.specs.Seen.{lie_view};
ghost use Rattle.drawn_scenarios.specs.Lines.{effect_of, slots_of, group, some_of, rest_of, line};
ghost use Rattle.drawn_scenarios.specs.Lines.{lines_of, lie, lies_of, restarts_in, restarts_at};
ghost use Rattle.drawn_scenarios.specs.Lines.{restarts_of};

use crate::bout::{Bout, Conduct, Fault};
use crate::options::Options;
use scenario::{EffectPart, FaultPart, LiePart, NumbersPart, RestartPart};
use std::alloc::{AllocError, Global};

/// How many bytes a frame has before its body, a value has, and an entry of a row.
const HEADER: i64 = 14;

const VALUE: i64 = 8;

const ENTRY: i64 = 2;

/// By how much a wrong value is less than the number that was drawn for it.
const OFFSET: u64 = 2000;

/// A tick that is late.
const LATE: i64 = 25;

/// What a fault does to a frame.
fn effect(alloc: Global, fault: &Fault) -> Result<EffectPart, AllocError>
    ensures { IfOk result (λ e. effect_view e ≡ effect_of fault.now) }
{
    match fault {
        Fault::Silent => Ok(EffectPart::Drop),
        Fault::Late => Ok(EffectPart::Time(LATE)),
        Fault::Twice => Ok(EffectPart::Twice),
        Fault::Value { channel, value } => Ok(EffectPart::Set {
            at: HEADER + VALUE * i64::from(*channel),
            hex: hex::encode(alloc, u64::from(*value).wrapping_sub(OFFSET).to_be_bytes())?,
        }),
        Fault::Accusation { accused, kinds } => Ok(EffectPart::Set {
            at: HEADER + ENTRY * i64::from(*accused),
            hex: hex::encode(alloc, [0, *kinds])?,
        }),
    }
}

/// The slots in which a fault touches frames.
fn slots(alloc: Global, options: &Options, fault: &Fault) -> Result<NumbersPart, AllocError>
    ensures { IfOk result (λ n. numbers_view n ≡ slots_of options.now.choices fault.now) }
{
    let slot = match fault {
        Fault::Silent | Fault::Late | Fault::Twice => return Ok(NumbersPart::All),
        Fault::Value { .. } => options.choices.m + 2,
        Fault::Accusation { .. } => options.choices.m + 3,
    };
    Ok(NumbersPart::These(Vec::from_slice(alloc, &[i64::from(slot)])?))
}

/// The other nodes at the places of the bits that are set.
fn group(alloc: Global, nodes: u8, node: u8, mask: u32) -> Result<NumbersPart, AllocError>
    ensures { IfOk result (λ n. numbers_view n ≡ group nodes node mask) }
{
    let mut numbers = Vec::new(alloc);
    let mut left = mask;
    for other in 0..nodes {
        if other == node {
            continue;
        }
        if left % 2 == 1 {
            numbers.push(i64::from(other))?;
        }
        left /= 2;
    }
    Ok(NumbersPart::These(numbers))
}

/// Some of the others.
fn some_of(
    alloc: Global,
    options: &Options,
    bout: &Bout,
    some: u32,
) -> Result<NumbersPart, AllocError>
    ensures { IfOk result (λ n. numbers_view n ≡ some_of options.now.choices bout.now some) }
{
    group(alloc, options.choices.nodes, bout.node, some)
}

/// The rest of them.
fn rest_of(
    alloc: Global,
    options: &Options,
    bout: &Bout,
    some: u32,
) -> Result<NumbersPart, AllocError>
    ensures { IfOk result (λ n. numbers_view n ≡ rest_of options.now.choices bout.now some) }
{
    let all = options.set_count() - 1;
    group(
        alloc,
        options.choices.nodes,
        bout.node,
        all.saturating_sub(some),
    )
}

/// A line of a bout.
fn line(
    alloc: Global,
    options: &Options,
    bout: &Bout,
    to: NumbersPart,
    fault: &Fault,
) -> Result<FaultPart, AllocError>
    ensures { IfOk result (λ x. fault_view x
        ≡ line options.now.choices bout.now (numbers_view to) fault.now) }
{
    Ok(FaultPart {
        from: i64::from(bout.node),
        to,
        periods: Vec::from_slice(alloc, &[i64::from(bout.first), i64::from(bout.last)])?,
        slots: slots(alloc, options, fault)?,
        effect: effect(alloc, fault)?,
    })
}

/// Adds the lines of a bout.
fn push_lines(
    faults: &mut Vec<FaultPart>,
    alloc: Global,
    options: &Options,
    bout: &Bout,
) -> Result<(), AllocError>
    ensures { OnOk result (map fault_view faults.new.items ≡ map fault_view faults.old.items
        ++ lines_of options.now.choices bout.now) }
{
    match &bout.conduct {
        Conduct::Alike { fault, .. } => {
            faults.push(line(alloc, options, bout, NumbersPart::All, fault)?)?;
        }
        Conduct::Apart {
            some,
            fault,
            rest,
            ..
        } => {
            let to = some_of(alloc, options, bout, *some)?;
            faults.push(line(alloc, options, bout, to, fault)?)?;
            if let Some(other) = rest {
                let to = rest_of(alloc, options, bout, *some)?;
                faults.push(line(alloc, options, bout, to, other)?)?;
            }
        }
    }
    Ok(())
}

/// The fault lines.
pub fn faults(
    alloc: Global,
    options: &Options,
    bouts: &[Bout],
) -> Result<Vec<FaultPart>, AllocError>
    ensures { IfOk result (λ v. map fault_view v.items
        ≡ flat_map (lines_of options.now.choices) bouts.now) }
{
    let mut faults = Vec::new(alloc);
    for bout in bouts {
        push_lines(&mut faults, alloc, options, bout)?;
    }
    Ok(faults)
}

/// A lie of a bout.
fn lie(alloc: Global, bout: &Bout, to: NumbersPart, by: i64) -> Result<LiePart, AllocError>
    ensures { IfOk result (λ x. lie_view x ≡ lie bout.now (numbers_view to) by) }
{
    Ok(LiePart {
        from: i64::from(bout.node),
        to,
        periods: Vec::from_slice(alloc, &[i64::from(bout.first), i64::from(bout.last)])?,
        by,
    })
}

/// Adds a lie of a bout.
fn push_lie(
    lies: &mut Vec<LiePart>,
    alloc: Global,
    bout: &Bout,
    to: NumbersPart,
    by: i64,
) -> Result<(), AllocError>
    ensures { OnOk result (map lie_view lies.new.items ≡ map lie_view lies.old.items
        ++ lie bout.now (numbers_view to) by ∷ []) }
{
    lies.push(lie(alloc, bout, to, by)?)?;
    Ok(())
}

/// Adds the lies of a bout.
fn push_lies(
    lies: &mut Vec<LiePart>,
    alloc: Global,
    options: &Options,
    bout: &Bout,
) -> Result<(), AllocError>
    ensures { OnOk result (map lie_view lies.new.items ≡ map lie_view lies.old.items
        ++ lies_of options.now.choices bout.now) }
{
    match &bout.conduct {
        Conduct::Alike { lie: by, .. } => {
            if let Some(by) = by {
                push_lie(lies, alloc, bout, NumbersPart::All, *by)?;
            }
        }
        Conduct::Apart {
            some,
            lies: bys,
            ..
        } => {
            if let Some((to_some, to_rest)) = bys {
                let to = some_of(alloc, options, bout, *some)?;
                push_lie(lies, alloc, bout, to, *to_some)?;
                let to = rest_of(alloc, options, bout, *some)?;
                push_lie(lies, alloc, bout, to, *to_rest)?;
            }
        }
    }
    Ok(())
}

/// The lies of clocks.
pub fn lies(alloc: Global, options: &Options, bouts: &[Bout]) -> Result<Vec<LiePart>, AllocError>
    ensures { IfOk result (λ v. map lie_view v.items
        ≡ flat_map (lies_of options.now.choices) bouts.now) }
{
    let mut lies = Vec::new(alloc);
    for bout in bouts {
        push_lies(&mut lies, alloc, options, bout)?;
    }
    Ok(lies)
}

/// Whether the node of a bout restarts in a period.
fn restarts_in(options: &Options, period: u32, bout: &Bout) -> bool
    ensures { result ≡ restarts_in options.now.choices period bout.now }
{
    let restart = options.choices.restart;
    restart > 0 && u64::from(bout.last) + u64::from(restart) == u64::from(period)
}

/// Adds the restarts of a period.
fn push_restarts(
    restarts: &mut Vec<RestartPart>,
    options: &Options,
    bouts: &[Bout],
    period: u32,
) -> Result<(), AllocError>
    ensures { OnOk result (map restart_view restarts.new.items
        ≡ map restart_view restarts.old.items ++ restarts_at options.now.choices bouts.now period) }
{
    for bout in bouts {
        if restarts_in(options, period, bout) {
            restarts.push(RestartPart {
                node: i64::from(bout.node),
                period: i64::from(period),
            })?;
        }
    }
    Ok(())
}

/// The restarts, period by period.
pub fn restarts(
    alloc: Global,
    options: &Options,
    bouts: &[Bout],
) -> Result<Vec<RestartPart>, AllocError>
    ensures { IfOk result (λ v. map restart_view v.items
        ≡ restarts_of options.now.choices bouts.now) }
{
    let mut restarts = Vec::new(alloc);
    for period in 1..options.choices.periods {
        push_restarts(&mut restarts, options, bouts, period)?;
    }
    Ok(restarts)
}
