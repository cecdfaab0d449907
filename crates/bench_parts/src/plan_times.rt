//! The making of a full fault plan, a million look-ups of effects beside as many loads, and the
//! judging of 60,000 lines.

ghost use Rattle.std.specs.Prelude.{◌≡◌};

use fault_classes::{Effect, FaultLine, FaultPlan, PlanError, PlanSize};
use node_grid::NodeSet;
use std::alloc::{AllocError, Global};
use std::io;
use std::time::Instant;

/// The nodes, slots and periods of the plans.
const NODES: u8 = 8;

const SLOTS: u8 = 8;

const PERIODS: u32 = 1024;

const SIZE: PlanSize = PlanSize {
    nodes: NODES,
    rounds: 2,
    periods: PERIODS,
};

/// The lines of the full plan, and the look-ups in it.
const LINES: u32 = 4096;

const LOOKUPS: u32 = 1_000_000;

/// The lines that are judged and refused for their number.
const JUDGED: u32 = 60_000;

/// A frame of a plan.
#[derive(Clone, Copy)]
struct Place {
    period: u32,
    slot: u8,
    from: u8,
    to: u8,
}

/// A plan of eight nodes with two relay rounds in 1,024 periods.
#[derive(Drop)]
struct SizedPlan {
    plan: FaultPlan<8>,
    ghost nodes: { plan.nodes ≡ 8 },
    ghost rounds: { plan.rounds ≡ 2 },
    ghost periods: { plan.periods ≡ 1024 },
}

/// The plan of these lines. More than 100,000 are too many, whatever they are.
fn plan_of(alloc: Global, lines: Vec<FaultLine<8>>) -> Result<SizedPlan, PlanError> {
    if lines.len() > 100_000 {
        return Err(PlanError::TooMany);
    }
    let plan = FaultPlan::new(alloc, SIZE, lines, Vec::new(alloc))?;
    Ok(SizedPlan { plan })
}

/// One of several effects.
fn effect_of(alloc: Global, number: u32) -> Result<Effect, AllocError> {
    Ok(match number % 6 {
        0 => Effect::Drop,
        1 => Effect::Cut(7),
        2 => Effect::Twice,
        3 => Effect::Time(25),
        4 => Effect::Set {
            at: 14,
            bytes: Vec::from_array(alloc, [0, 2, 0, 0])?,
        },
        _ => Effect::Raw(Vec::from_array(alloc, [1, 2, 3, 4, 5])?),
    })
}

/// The line of this number of those that touch all frames of four nodes in each period.
fn full_line(alloc: Global, number: u32) -> Result<FaultLine<8>, AllocError> {
    let period = number / 4;
    let from = (number % 4 * 2 + period % 2) as u8;
    Ok(FaultLine {
        from,
        to: NodeSet::full(NODES).without(from),
        first: period,
        last: period,
        slots: 0xff,
        effect: effect_of(alloc, number)?,
    })
}

/// Lines that touch all frames of four nodes in each period.
fn full_lines(alloc: Global) -> Result<Vec<FaultLine<8>>, AllocError> {
    let mut lines = Vec::with_capacity(alloc, LINES as usize)?;
    for number in 0..LINES {
        let line = full_line(alloc, number)?;
        lines.push(line)?;
    }
    Ok(lines)
}

/// The line of this number of those that touch one frame each.
fn single_line(number: u32) -> FaultLine<8> {
    let place = number % 448;
    let link = place / 8;
    let from = (link / 7) as u8;
    let mut to = NodeSet::empty();
    to.put((from + 1 + (link % 7) as u8) % NODES);
    FaultLine {
        from,
        to,
        first: number / 448,
        last: number / 448,
        slots: 1 << (place % 8),
        effect: Effect::Drop,
    }
}

/// Lines of one frame each, no two of them the same.
fn single_lines(alloc: Global) -> Result<Vec<FaultLine<8>>, AllocError> {
    let mut lines = Vec::with_capacity(alloc, JUDGED as usize)?;
    for number in 0..JUDGED {
        lines.push(single_line(number))?;
    }
    Ok(lines)
}

/// The frame that a number stands for.
fn place_of(draw: u32) -> Place {
    let from = (draw >> 13) % 8;
    Place {
        period: draw % PERIODS,
        slot: ((draw >> 10) % 8) as u8,
        from: from as u8,
        to: ((from + 1 + (draw >> 16) % 7) % 8) as u8,
    }
}

/// Pseudo-random frames.
fn places(alloc: Global) -> Result<Vec<Place>, AllocError> {
    let mut state: u64 = 1;
    let mut found = Vec::with_capacity(alloc, LOOKUPS as usize)?;
    for _ in 0..LOOKUPS {
        state = state
            .wrapping_mul(6_364_136_223_846_793_005)
            .wrapping_add(1_442_695_040_888_963_407);
        found.push(place_of((state >> 33) as u32))?;
    }
    Ok(found)
}

/// Whether a line touches this frame.
fn is_touched(sized: &SizedPlan, place: &Place) -> bool {
    place.period < PERIODS
        && place.slot < SLOTS
        && place.from < NODES
        && place.to < NODES
        && place.from != place.to
        && sized
            .plan
            .effect(place.period, place.slot, place.from, place.to)
            .is_some()
}

/// How many of these frames a line touches.
fn touched(sized: &SizedPlan, places: &[Place]) -> u32 {
    let mut count: u32 = 0;
    for place in places {
        if is_touched(sized, place) {
            count = count.wrapping_add(1);
        }
    }
    count
}

/// The sum of a table's entries at these frames.
fn loaded(table: &[u16], places: &[Place]) -> u32 {
    let mut sum: u32 = 0;
    for place in places {
        let row = (place.period as usize % 1024 * 8 + place.from as usize) * 8
            + place.slot as usize;
        let cell = row * 8 + place.to as usize;
        if cell < table.len() {
            sum = sum.wrapping_add(table[cell] as u32);
        }
    }
    sum
}

/// How many of these frames a line of the plan touches, and how many microseconds the look-ups
/// take.
fn time_look_ups(rt: &HostRuntime, sized: &SizedPlan, places: &[Place]) -> io::Result<(u32, u128)> {
    let start = Instant::now(rt)?;
    let count = touched(sized, places);
    Ok((count, start.elapsed(rt)?.as_micros()))
}

/// The sum of this table's entries at these frames, and how many microseconds the loads take.
fn time_loads_of(rt: &HostRuntime, table: &[u16], places: &[Place]) -> io::Result<(u32, u128)> {
    let start = Instant::now(rt)?;
    let sum = loaded(table, places);
    Ok((sum, start.elapsed(rt)?.as_micros()))
}

/// The sum of a table's entries at these frames, and how many microseconds the loads take.
fn time_loads(rt: &HostRuntime, places: &[Place]) -> io::Result<(u32, u128)> {
    let table = vec![in rt.alloc(); 1u16; 524_288]?;
    time_loads_of(rt, table.as_slice(), places)
}

/// Prints what the look-ups gave and took, and the loads.
fn show_look_ups(rt: &HostRuntime, looked: (u32, u128), loaded: (u32, u128)) -> io::Result<()> {
    let (count, looking) = looked;
    let (sum, loading) = loaded;
    println!(rt;
        "{LOOKUPS} look-ups of effects take {looking} us, as many loads {loading} us ({count} touched, sum {sum})"
    )
}

/// Looks these frames up in a plan.
fn measure_places(rt: &HostRuntime, sized: &SizedPlan, places: &[Place]) -> io::Result<()> {
    let loaded = time_loads(rt, places)?;
    let looked = time_look_ups(rt, sized, places)?;
    show_look_ups(rt, looked, loaded)
}

/// Looks frames up in a plan.
fn measure_look_ups(rt: &HostRuntime, sized: &SizedPlan) -> io::Result<()> {
    let places = places(rt.alloc())?;
    measure_places(rt, sized, places.as_slice())
}

/// Prints how long it took since then to make a plan, and looks effects up in it.
fn show_plan(rt: &HostRuntime, sized: &SizedPlan, start: &Instant) -> io::Result<()> {
    let making = start.elapsed(rt)?.as_micros();
    println!(rt; "a plan of {LINES} lines over {PERIODS} periods is made in {making} us")?;
    measure_look_ups(rt, sized)
}

/// Makes a plan of these lines, and looks effects up in it.
fn measure_making(rt: &HostRuntime, lines: Vec<FaultLine<8>>) -> io::Result<()> {
    let start = Instant::now(rt)?;
    match plan_of(rt.alloc(), lines) {
        Ok(sized) => show_plan(rt, &sized, &start),
        Err(_) => println!(rt; "no plan"),
    }
}

/// Makes the full plan and looks effects up in it.
fn measure_plan(rt: &HostRuntime) -> io::Result<()> {
    let lines = full_lines(rt.alloc())?;
    measure_making(rt, lines)
}

/// Whether lines are refused for their number.
fn are_too_many(alloc: Global, lines: Vec<FaultLine<8>>) -> bool {
    matches!(plan_of(alloc, lines), Err(PlanError::TooMany))
}

/// Judges these lines.
fn measure_refusal(rt: &HostRuntime, lines: Vec<FaultLine<8>>) -> io::Result<()> {
    let start = Instant::now(rt)?;
    let refused = are_too_many(rt.alloc(), lines);
    let judging = start.elapsed(rt)?.as_micros();
    println!(rt; "{JUDGED} lines are judged in {judging} us, refused for their number: {refused}")
}

/// Judges many lines without overlap.
fn measure_judging(rt: &HostRuntime) -> io::Result<()> {
    let lines = single_lines(rt.alloc())?;
    measure_refusal(rt, lines)
}

/// Prints what plans and look-ups take.
pub fn measure(rt: &HostRuntime) -> io::Result<()> {
    measure_plan(rt)?;
    measure_judging(rt)
}
