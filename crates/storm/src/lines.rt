//! Fault lines of a spell, as parts of a scenario.
ghost use Rattle.std.specs.Prelude.{◌≡◌, ◌<◌, ◌∷◌, [], pos, IfOk};
ghost use Rattle.fault_classes.specs.Change.Change.{Set};
ghost use Rattle.node_grid.specs.NodeSet.{ids_below};
ghost use Rattle.scenario.specs.Seen.{numbers_view, effect_view, fault_view};
ghost use Rattle.storm.specs.Storm.{others, false_value};
ghost use Rattle.storm.specs.Parts.{numbers_of, effect_of, fault_by};

use crate::spell::Spell;
use scenario::{EffectPart, FaultPart, NumbersPart};
use std::alloc::{AllocError, Global};

/// A line of the spell, to these nodes, in these slots.
fn line(
    alloc: Global,
    spell: Spell,
    to: NumbersPart,
    slots: NumbersPart,
    effect: EffectPart,
) -> Result<FaultPart, AllocError>
    ensures { IfOk result (λ x. fault_view x
        ≡ fault_by spell (numbers_view to) (numbers_view slots) (effect_view effect)) }
{
    Ok(FaultPart {
        from: i64::from(spell.node),
        to,
        periods: Vec::from_slice(alloc, &[i64::from(spell.first), i64::from(spell.last)])?,
        slots,
        effect,
    })
}

/// A line of the spell to one node in one slot.
pub fn line_to_one(
    alloc: Global,
    spell: Spell,
    receiver: u8,
    slot: u8,
    effect: EffectPart,
) -> Result<FaultPart, AllocError>
    ensures { IfOk result (λ x. fault_view x
        ≡ fault_by spell (numbers_of (receiver ∷ [])) (numbers_of (slot ∷ []))
        (effect_view effect)) }
{
    let to = only(alloc, receiver)?;
    let slots = only(alloc, slot)?;
    line(alloc, spell, to, slots, effect)
}

/// A line of the spell to all other nodes.
pub fn line_to_others(
    alloc: Global,
    spell: Spell,
    slots: NumbersPart,
    effect: EffectPart,
) -> Result<FaultPart, AllocError>
    ensures { IfOk result (λ x. fault_view x
        ≡ fault_by spell (numbers_of (others spell)) (numbers_view slots) (effect_view effect)) }
{
    let to = others(alloc, spell)?;
    line(alloc, spell, to, slots, effect)
}

/// One node or slot.
pub fn only(alloc: Global, number: u8) -> Result<NumbersPart, AllocError>
    ensures { IfOk result (λ n. numbers_view n ≡ numbers_of (number ∷ [])) }
{
    Ok(NumbersPart::These(Vec::from_slice(alloc, &[i64::from(number)])?))
}

/// All nodes but that of the spell.
fn others(alloc: Global, spell: Spell) -> Result<NumbersPart, AllocError>
    ensures { IfOk result (λ n. numbers_view n ≡ numbers_of (others spell)) }
{
    let mut numbers = Vec::new(alloc);
    for node in 0..8u8 {
        if node != spell.node {
            numbers.push(i64::from(node))?;
        }
    }
    Ok(NumbersPart::These(numbers))
}

/// All slots.
pub fn all_slots(alloc: Global) -> Result<NumbersPart, AllocError>
    ensures { IfOk result (λ n. numbers_view n ≡ numbers_of (ids_below 8)) }
{
    Ok(NumbersPart::These(Vec::from_slice(alloc, &[0, 1, 2, 3, 4, 5, 6, 7])?))
}

/// A false value in place of the first one in a frame.
pub fn false_value(alloc: Global, drawn: u32) -> Result<EffectPart, AllocError>
    requires { drawn < 1000 }
    ensures { IfOk result (λ e. effect_view e ≡ effect_of (false_value drawn)) }
{
    let value = 5000 + u64::from(drawn);
    Ok(EffectPart::Set {
        at: 14,
        hex: hex::encode(alloc, value.to_be_bytes())?,
    })
}

/// A false byte in a row of accusations.
pub fn false_byte(alloc: Global, drawn: u8) -> Result<EffectPart, AllocError>
    ensures { IfOk result (λ e. effect_view e ≡ effect_of (Set 15 (drawn ∷ []))) }
{
    Ok(EffectPart::Set {
        at: 15,
        hex: hex::encode(alloc, [drawn])?,
    })
}
