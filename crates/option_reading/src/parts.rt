//! From a JSON value to the parts of options.
//!
//! Each call answers `NoPart` where a key is missing, unknown or of another type, or a text is
//! another one, and `NoMemory` where there is none.
ghost use Rattle.std.specs.Prelude.{◌≡◌};
ghost use Rattle.std.specs.List.{list_any};
ghost use Rattle.serde_json.specs.Find.{as_bool};
ghost use Rattle.json_parts.specs.Meaning.{view};
ghost use Rattle.json_parts.specs.Part.{Gives};
ghost use Rattle.drawn_scenarios.specs.declared.choices.Classes.{Classes as ClassesAre};
ghost use Rattle.drawn_scenarios.specs.declared.choices.FaultClass.{FaultClass as FaultClassIs};
ghost use Rattle.drawn_scenarios.specs.declared.option_parts.ClockOptionParts.{ClockOptionParts as ClockIs};
ghost use Rattle.option_reading.specs.Keys.{class_at, is_benign, is_symmetric, is_asymmetric};
ghost use Rattle.option_reading.specs.Keys.{classes_of, classes_at, clock_at, copies_in};
ghost use Rattle.option_reading.specs.Keys.{option_fields, options_read};

use drawn_scenarios::{Classes, ClockOptionParts, FaultClass, OptionParts};
use json::Value;
use json_parts::{Form, Number, PartError, has_keys, list, member, optional, required, text};
use std::alloc::Global;

/// The name of a class.
struct ClassName;

impl<'a> Form<'a> for ClassName {
    type Part = FaultClass;

    ghost Meaning = { FaultClassIs };

    ghost seen = { λ class. class };

    ghost reads = { λ _ d. class_at d };

    fn read(&self, _alloc: Global, value: &Value<'a>) -> Result<FaultClass, PartError> {
        match text(value) {
            Some("benign") => Ok(FaultClass::Benign),
            Some("symmetric") => Ok(FaultClass::Symmetric),
            Some("asymmetric") => Ok(FaultClass::Asymmetric),
            _ => Err(PartError::NoPart),
        }
    }
}

fn has_benign(named: &[FaultClass]) -> bool
    ensures { result ≡ list_any is_benign named.now }
{
    named
        .iter()
        .any(|class| matches!(class, FaultClass::Benign))
}

fn has_symmetric(named: &[FaultClass]) -> bool
    ensures { result ≡ list_any is_symmetric named.now }
{
    named
        .iter()
        .any(|class| matches!(class, FaultClass::Symmetric))
}

fn has_asymmetric(named: &[FaultClass]) -> bool
    ensures { result ≡ list_any is_asymmetric named.now }
{
    named
        .iter()
        .any(|class| matches!(class, FaultClass::Asymmetric))
}

/// The classes that are named.
fn classes_of(named: &[FaultClass]) -> Classes
    ensures { result ≡ classes_of named.now }
{
    Classes {
        benign: has_benign(named),
        symmetric: has_symmetric(named),
        asymmetric: has_asymmetric(named),
    }
}

/// The names of classes.
struct ClassNames;

impl<'a> Form<'a> for ClassNames {
    type Part = Classes;

    ghost Meaning = { ClassesAre };

    ghost seen = { λ classes. classes };

    ghost reads = { λ _ d. classes_at d };

    fn read(&self, alloc: Global, value: &Value<'a>) -> Result<Classes, PartError> {
        Ok(classes_of(list(alloc, &ClassName, value)?.as_slice()))
    }
}

/// The options of clocks.
struct ClockForm;

impl<'a> Form<'a> for ClockForm {
    type Part = ClockOptionParts;

    ghost Meaning = { ClockIs };

    ghost seen = { λ part. part };

    ghost reads = { λ _ d. clock_at d };

    fn read(&self, alloc: Global, value: &Value<'a>) -> Result<ClockOptionParts, PartError> {
        if !has_keys(value, &["epsilon", "drift", "start", "lie"]) {
            return Err(PartError::NoPart);
        }
        Ok(ClockOptionParts {
            epsilon: required(alloc, &Number, value, "epsilon")?,
            drift: required(alloc, &Number, value, "drift")?,
            start: required(alloc, &Number, value, "start")?,
            lie: required(alloc, &Number, value, "lie")?,
        })
    }
}

/// Yes or no.
fn flag(value: &Value<'_>) -> Option<bool>
    ensures { result ≡ as_bool (view value.now) }
{
    match value {
        Value::Bool(flag) => Some(*flag),
        _ => None,
    }
}

/// Whether there are copies; none where the key is missing.
fn copies(value: &Value<'_>) -> Result<bool, PartError>
    ensures { Gives (λ flag. flag) (copies_in (view value.now)) result }
{
    match member(value, "copies") {
        None => Ok(false),
        Some(found) => flag(found).ok_or(PartError::NoPart),
    }
}

fn fields(alloc: Global, value: &Value<'_>) -> Result<OptionParts, PartError>
    ensures { Gives (λ p. p) (option_fields (view value.now)) result }
{
    Ok(OptionParts {
        nodes: required(alloc, &Number, value, "nodes")?,
        m: required(alloc, &Number, value, "m")?,
        periods: required(alloc, &Number, value, "periods")?,
        faulty: required(alloc, &Number, value, "faulty")?,
        classes: required(alloc, &ClassNames, value, "classes")?,
        rate: required(alloc, &Number, value, "rate")?,
        length: required(alloc, &Number, value, "length")?,
        restart: required(alloc, &Number, value, "restart")?,
        copies: copies(value)?,
        clock: optional(alloc, &ClockForm, value, "clock")?,
    })
}

/// The parts of the options that a value is.
pub(crate) fn parts(alloc: Global, value: &Value<'_>) -> Result<OptionParts, PartError>
    ensures { Gives (λ p. p) (options_read (view value.now)) result }
{
    let names = [
        "nodes", "m", "periods", "faulty", "classes", "rate", "length", "restart", "copies",
        "clock",
    ];
    if has_keys(value, &names) {
        fields(alloc, value)
    } else {
        Err(PartError::NoPart)
    }
}
