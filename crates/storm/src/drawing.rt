//! The fault lines and the restarts of a storm, drawn block by block.
ghost use Rattle.std.specs.Prelude.{◌≡◌, ◌<◌, ◌≤◌, map, IfOk, OnOk};
ghost use Rattle.scenario.specs.Seen.{fault_view, restart_view};
ghost use Rattle.storm.specs.Storm.{lies_drawn, told_row, each_drawn, others, lines_by};
ghost use Rattle.storm.specs.Storm.{block, storm, lines_of, restarts_of};
ghost use Rattle.storm.specs.Parts.{fault_of, restart_parts};
ghost use Rattle.storm.specs.Adding.{Adds, AddsBlock};

use crate::lines::{all_slots, false_byte, false_value, line_to_one, line_to_others, only};
use crate::spell::Spell;
use draws::{draw, generator};
use rand_pcg::Lcg64Xsh32;
use scenario::{EffectPart, FaultPart, RestartPart};
use std::alloc::{AllocError, Global};

/// The slot in which nodes tell their values.
const VALUE_SLOT: u8 = 4;

/// The slot in which nodes tell their rows, which case 3 changes.
const ROW_SLOT: u8 = 5;

/// What is drawn for a storm.
#[derive(Drop)]
pub struct Drawn {
    /// The fault lines.
    pub faults: Vec<FaultPart>,
    /// The restarts.
    pub restarts: Vec<RestartPart>,
}

/// The fault lines and restarts of a number's storm.
///
/// # Errors
/// Want of memory.
pub fn draw_storm(alloc: Global, seed: u64) -> Result<Drawn, AllocError>
    ensures faults { IfOk result (λ s. map fault_view s.faults.items
        ≡ map fault_of (lines_of (storm seed))) }
    ensures restarts { IfOk result (λ s. map restart_view s.restarts.items
        ≡ map restart_parts (restarts_of (storm seed))) }
{
    let mut generator = generator(seed);
    let mut faults = Vec::new(alloc);
    let mut restarts = Vec::new(alloc);
    for k in 0..64 {
        push_block(&mut faults, &mut restarts, &mut generator, alloc, k)?;
    }
    Ok(Drawn { faults, restarts })
}

/// Draws a block.
fn push_block(
    faults: &mut Vec<FaultPart>,
    restarts: &mut Vec<RestartPart>,
    generator: &mut Lcg64Xsh32,
    alloc: Global,
    k: u32,
) -> Result<(), AllocError>
    requires { k < 64 }
    ensures { OnOk result (AddsBlock faults.old.items faults.new.items restarts.old.items
        restarts.new.items generator.old generator.new (block k)) }
{
    let node = 5 + draw(generator, 3) as u8;
    let case = draw(generator, 4);
    let length = 1 + draw(generator, 8);
    let spell = Spell {
        node,
        first: 16 * k + 1,
        last: 16 * k + length,
    };
    push_lines(faults, generator, alloc, spell, case)?;
    restarts.push(RestartPart {
        node: i64::from(node),
        period: i64::from(spell.first + 9),
    })?;
    Ok(())
}

/// Draws the lines of a spell.
fn push_lines(
    faults: &mut Vec<FaultPart>,
    generator: &mut Lcg64Xsh32,
    alloc: Global,
    spell: Spell,
    case: u32,
) -> Result<(), AllocError>
    requires { spell.node < 8 }
    ensures { OnOk result (Adds faults.old.items faults.new.items generator.old generator.new
        (lines_by spell case)) }
{
    if case == 0 {
        faults.push(line_to_others(alloc, spell, all_slots(alloc)?, EffectPart::Drop)?)?;
        return Ok(());
    }
    if case == 1 {
        let effect = false_value(alloc, draw(generator, 1000))?;
        faults.push(line_to_others(alloc, spell, only(alloc, VALUE_SLOT)?, effect)?)?;
        return Ok(());
    }
    if case == 2 {
        push_mixed(faults, generator, alloc, spell)
    } else {
        push_rows(faults, generator, alloc, spell)
    }
}

/// Draws for each other node what it is told.
fn push_mixed(
    faults: &mut Vec<FaultPart>,
    generator: &mut Lcg64Xsh32,
    alloc: Global,
    spell: Spell,
) -> Result<(), AllocError>
    ensures { OnOk result (Adds faults.old.items faults.new.items generator.old generator.new
        (each_drawn (lies_drawn spell) (others spell))) }
{
    for receiver in 0..8 {
        if receiver != spell.node {
            push_told(faults, generator, alloc, spell, receiver)?;
        }
    }
    Ok(())
}

/// Draws what one node is told.
fn push_told(
    faults: &mut Vec<FaultPart>,
    generator: &mut Lcg64Xsh32,
    alloc: Global,
    spell: Spell,
    receiver: u8,
) -> Result<(), AllocError>
    requires { receiver < 8 }
    ensures { OnOk result (Adds faults.old.items faults.new.items generator.old generator.new
        (lies_drawn spell receiver)) }
{
    let way = draw(generator, 3);
    if way == 0 {
        return Ok(());
    }
    if way == 1 {
        faults.push(line_to_one(alloc, spell, receiver, ROW_SLOT, EffectPart::Drop)?)?;
        return Ok(());
    }
    let effect = false_value(alloc, draw(generator, 1000))?;
    faults.push(line_to_one(alloc, spell, receiver, VALUE_SLOT, effect)?)?;
    Ok(())
}

/// Draws for each other node a false byte of the row that it is told.
fn push_rows(
    faults: &mut Vec<FaultPart>,
    generator: &mut Lcg64Xsh32,
    alloc: Global,
    spell: Spell,
) -> Result<(), AllocError>
    ensures { OnOk result (Adds faults.old.items faults.new.items generator.old generator.new
        (each_drawn (told_row spell) (others spell))) }
{
    for receiver in 0..8 {
        if receiver != spell.node {
            let effect = false_byte(alloc, draw(generator, 256) as u8)?;
            faults.push(line_to_one(alloc, spell, receiver, ROW_SLOT, effect)?)?;
        }
    }
    Ok(())
}
