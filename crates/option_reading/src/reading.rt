//! Options that JSON text describes.
ghost use Rattle.std.specs.Prelude.{◌≡◌, ℕ, Some, IfOk, IsErrOf};
ghost use Rattle.json_parts.specs.Meaning.{view};
ghost use Rattle.drawn_scenarios.specs.Options.{choices_of};
ghost use Rattle.drawn_scenarios.specs.declared.option_parts.OptionParts.{OptionParts as OptionPartsAre};
ghost use Rattle.option_reading.specs.Verdict.{value_refusal, IsAccepted, IsAcceptedText};
ghost use Rattle.option_reading.specs.Verdict.{IsUnreadable, IsRefusedText};

use crate::parts::parts;
use drawn_scenarios::Options;
use json::{Scratch, Value};
use json_parts::{PartError, TextError, value_of};
use std::alloc::Global;

/// The rule that an option is in its range. Its place is the option's.
const RANGE_RULE: u8 = 23;

/// Why a text has no options.
#[derive(Clone, Copy)]
pub enum OptionError {
    /// It is no JSON text.
    Unreadable,
    /// A rule refuses it.
    Refused {
        /// The rule: 1 for keys and types, 23 for the range of an option.
        rule: u8,
        /// Which option is out of range, from 0.
        place: u8,
    },
    /// There was no memory.
    NoMemory,
}

/// The options that a JSON value is.
fn from_value(alloc: Global, value: &Value<'_>) -> Result<Options, OptionError>
    ensures accepted { IfOk result (λ o. (parts : OptionPartsAre)
        × IsAccepted (view value.now) parts × (o.choices ≡ choices_of parts)) }
    ensures readable { IsErrOf result OptionError.Unreadable → ⊥ }
    ensures refused { (rule place : ℕ) → IsErrOf result (OptionError.Refused rule place) →
        value_refusal (view value.now) ≡ Some (rule, place) }
{
    let parts = match parts(alloc, value) {
        Ok(parts) => parts,
        Err(PartError::NoPart) => return Err(OptionError::Refused { rule: 1, place: 0 }),
        Err(PartError::NoMemory) => return Err(OptionError::NoMemory),
    };
    match Options::new(&parts) {
        Ok(options) => Ok(options),
        Err(error) => Err(OptionError::Refused {
            rule: RANGE_RULE,
            place: error.place(),
        }),
    }
}

/// The options that JSON text describes.
///
/// # Errors
/// - `Unreadable` comes exactly where the bytes are no JSON text.
/// - `Refused` comes exactly where a rule fails, with the first option that is out of range.
/// - `NoMemory` may come at any time.
pub fn read(alloc: Global, bytes: &[u8]) -> Result<Options, OptionError>
    ensures accepted { IfOk result (λ o. (parts : OptionPartsAre) × IsAcceptedText bytes.now parts
        × (o.choices ≡ choices_of parts)) }
    ensures unreadable { IsErrOf result OptionError.Unreadable → IsUnreadable bytes.now }
    ensures refused { (rule place : ℕ) → IsErrOf result (OptionError.Refused rule place) →
        IsRefusedText bytes.now rule place }
{
    let mut scratch = Scratch::new(alloc);
    match value_of(alloc, bytes, &mut scratch) {
        Ok(value) => from_value(alloc, &value),
        Err(TextError::Unreadable) => Err(OptionError::Unreadable),
        Err(TextError::NoMemory) => Err(OptionError::NoMemory),
    }
}
