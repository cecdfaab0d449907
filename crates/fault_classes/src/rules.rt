ghost use Rattle.std.specs.Prelude.{◌≡◌, ℕ, ◌^◌, ◌<◌, ◌≤◌, None, map, length};
ghost use Rattle.fault_classes.specs.Change.{change_of};
ghost use Rattle.fault_classes.specs.Line.{line_of, slots_in};
ghost use Rattle.fault_classes.specs.Rules.{is_change, are_below, is_line, first_bad_line};
ghost use Rattle.fault_classes.specs.Rules.{comes_after, first_bad_restart};

use crate::cells::Shape;
use crate::{Effect, FaultLine, Restart};
use node_grid::NodeSet;
use slot_plan::is_off_time;

/// The most bytes that a line may cut off, put into a frame or send in its place.
const MOST_BYTES: usize = 4096;

/// Whether the numbers and bytes of an effect are in range.
fn is_effect(effect: &Effect) -> bool
    ensures { result ≡ is_change (change_of effect.now) }
{
    match effect {
        Effect::Drop | Effect::Twice => true,
        Effect::Cut(count) => 1 <= *count && *count <= 4096,
        Effect::Time(tick) => is_off_time(*tick),
        Effect::Set { at, bytes } => *at <= 4095 && 1 <= bytes.len() && bytes.len() <= MOST_BYTES,
        Effect::Raw(bytes) => bytes.len() <= MOST_BYTES,
    }
}

/// Whether the set has some nodes, all of them below `nodes`.
fn are_nodes<const N: usize>(set: &NodeSet<N>, nodes: u8) -> bool
    ensures { result ≡ are_below nodes set.now }
{
    for id in set.iter() {
        if id >= nodes {
            return false;
        }
    }
    !set.is_empty()
}

/// Whether the mask has some slots, all of them below `slots`.
fn are_slots(mask: u16, slots: u8) -> bool
    ensures { result ≡ are_below slots (slots_in mask) }
{
    mask != 0 && (slots >= 16 || mask >> slots == 0)
}

/// Whether a line is one of a plan of this shape.
fn is_line<const N: usize>(line: &FaultLine<N>, shape: &Shape) -> bool
    ensures { result ≡ is_line shape.now.nodes shape.now.slots shape.now.periods
        (line_of line.now) }
{
    line.from < shape.nodes
        && are_nodes(&line.to, shape.nodes)
        && !line.to.has(line.from)
        && line.first <= line.last
        && line.last < shape.periods
        && are_slots(line.slots, shape.slots)
        && is_effect(&line.effect)
}

/// The place of the first line that is out of range.
pub fn first_bad_line<const N: usize>(lines: &[FaultLine<N>], shape: &Shape) -> Option<u32>
    requires { length lines.now < 2 ^ 32 }
    ensures { result ≡ first_bad_line shape.now.nodes shape.now.slots shape.now.periods 0
        (map line_of lines.now) }
{
    for (place, line) in lines.iter().enumerate() {
        if !is_line(line, shape) {
            return Some(place as u32);
        }
    }
    None
}

/// Whether a restart comes after the one before it, where there is one.
fn comes_after(before: Option<Restart>, restart: &Restart) -> bool
    ensures { result ≡ comes_after before restart.now }
{
    match before {
        None => true,
        Some(last) => last.period < restart.period
            || (last.period == restart.period && last.node < restart.node),
    }
}

/// The place of the first restart that is out of range or doesn't come after the one before it.
pub fn first_bad_restart(restarts: &[Restart], nodes: u8, periods: u32) -> Option<u32>
    requires periods { 1 ≤ periods }
    requires few { length restarts.now < 2 ^ 32 }
    ensures { result ≡ first_bad_restart nodes periods None 0 restarts.now }
{
    let mut before = None;
    for (place, restart) in restarts.iter().enumerate() {
        let in_range = restart.node < nodes && 1 <= restart.period && restart.period <= periods - 1;
        if !(in_range && comes_after(before, restart)) {
            return Some(place as u32);
        }
        before = Some(*restart);
    }
    None
}
