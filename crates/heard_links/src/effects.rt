//! Effects of lines, and frames that no line touches.

ghost use Rattle.std.specs.Prelude.{◌≡◌, ◌==◌, option_map, true};
ghost use Rattle.fault_classes.specs.Change.{change_of};
ghost use Rattle.heard_links.specs.Hearing.{ActsAs};

use fault_classes::Effect;

/// An effect that leaves a frame as it is.
pub(crate) fn whole() -> Effect
    ensures { ActsAs (change_of result) None }
{
    Effect::Cut(0)
}

/// The effect of a line, or that of no line.
pub(crate) fn effect_or<'a>(effect: Option<&'a Effect>, whole: &'a Effect) -> &'a Effect
    requires { ActsAs (change_of whole.now) None }
    ensures { ActsAs (change_of result.now) (option_map (λ e. change_of e.now) effect.entry) }
{
    match effect {
        Some(effect) => effect,
        None => whole,
    }
}

/// Whether two effects are surely equal.
fn is_same_effect(one: &Effect, other: &Effect) -> bool
    ensures { result ≡ true → change_of one.now ≡ change_of other.now }
{
    match (one, other) {
        (Effect::Drop, Effect::Drop) | (Effect::Twice, Effect::Twice) => true,
        (Effect::Cut(one), Effect::Cut(other)) => *one == *other,
        (Effect::Time(one), Effect::Time(other)) => *one == *other,
        (
            Effect::Set { at, bytes },
            Effect::Set {
                at: from,
                bytes: others,
            },
        ) => *at == *from && bytes.as_slice() == others.as_slice(),
        (Effect::Raw(bytes), Effect::Raw(others)) => bytes.as_slice() == others.as_slice(),
        _ => false,
    }
}

/// Whether surely the same befalls two frames.
pub(crate) fn is_same(one: Option<&Effect>, other: Option<&Effect>) -> bool
    ensures { result ≡ true → option_map (λ e. change_of e.now) one.entry ≡
        option_map (λ e. change_of e.now) other.entry }
{
    match (one, other) {
        (None, None) => true,
        (Some(one), Some(other)) => is_same_effect(one, other),
        _ => false,
    }
}
