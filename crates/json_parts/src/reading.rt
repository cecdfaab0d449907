//! Parts by their form.
ghost use Rattle.std.specs.Prelude.{◌≡◌, IfOk, Option, Some, None, [], map, option_map};
ghost use Rattle.serde_json.specs.Data.{Data};
ghost use Rattle.json_parts.specs.Meaning.{view};
ghost use Rattle.json_parts.specs.Reading.{list_of, required, optional, lone};
ghost use Rattle.json_parts.specs.Part.{Gives};

use crate::error::PartError;
use crate::keys::has_keys;
use crate::values::{items, member};
use json::Value;
use std::alloc::{AllocError, Global};

/// A form of parts: how they are read from a value.
pub trait Form<'a> {
    /// What is read.
    type Part: Drop;

    // What a part is in the definitions, and what they read of a value.
    ghost Meaning: { Type 0 };

    ghost seen: { Self.Part → Meaning };

    ghost reads: { Self → Data → Option Meaning };

    /// The part that the value is.
    ///
    /// # Errors
    /// `NoPart` exactly where it is none; `NoMemory`.
    fn read(&self, alloc: Global, value: &Value<'a>) -> Result<Self::Part, PartError>
        ensures { Gives seen (reads self.now (view value.now)) result };
}

/// The parts that the items of a list are.
///
/// # Errors
/// `NoPart` exactly where the value is no list, or an item is no such part; `NoMemory`.
pub fn list<'a, F: Form<'a>>(
    alloc: Global,
    form: &F,
    value: &Value<'a>,
) -> Result<Vec<F::Part>, PartError>
    ensures { Gives (λ v. map F.seen v.items) (list_of (F.reads form.now) (view value.now)) result }
{
    let items = items(value).ok_or(PartError::NoPart)?;
    let mut found = Vec::with_capacity(alloc, items.len())?;
    for item in items {
        let Ok(()) = found.push(form.read(alloc, item)?) else {
            return Err(PartError::NoMemory);
        };
    }
    Ok(found)
}

/// The part at a key that must be there.
///
/// # Errors
/// `NoPart` exactly where the key is missing, or its value is no such part; `NoMemory`.
pub fn required<'a, F: Form<'a>>(
    alloc: Global,
    form: &F,
    value: &Value<'a>,
    key: &str,
) -> Result<F::Part, PartError>
    ensures { Gives F.seen (required key.now (F.reads form.now) (view value.now)) result }
{
    form.read(alloc, member(value, key).ok_or(PartError::NoPart)?)
}

/// The parts of the list at a key that must be there.
///
/// # Errors
/// `NoPart` exactly where the key is missing, or its value is no list of such parts; `NoMemory`.
pub fn required_list<'a, F: Form<'a>>(
    alloc: Global,
    form: &F,
    value: &Value<'a>,
    key: &str,
) -> Result<Vec<F::Part>, PartError>
    ensures { Gives (λ v. map F.seen v.items)
        (required key.now (list_of (F.reads form.now)) (view value.now)) result }
{
    list(alloc, form, member(value, key).ok_or(PartError::NoPart)?)
}

/// The part at a key that may be missing.
///
/// # Errors
/// `NoPart` exactly where the key is there and its value is no such part; `NoMemory`.
pub fn optional<'a, F: Form<'a>>(
    alloc: Global,
    form: &F,
    value: &Value<'a>,
    key: &str,
) -> Result<Option<F::Part>, PartError>
    ensures { Gives (option_map F.seen) (optional key.now None
        (λ d. option_map Some (F.reads form.now d)) (view value.now)) result }
{
    match member(value, key) {
        None => Ok(None),
        Some(found) => Ok(Some(form.read(alloc, found)?)),
    }
}

/// The parts of the list at a key; none where the key is missing.
///
/// # Errors
/// `NoPart` exactly where the key is there and its value is no list of such parts; `NoMemory`.
pub fn optional_list<'a, F: Form<'a>>(
    alloc: Global,
    form: &F,
    value: &Value<'a>,
    key: &str,
) -> Result<Vec<F::Part>, PartError>
    ensures { Gives (λ v. map F.seen v.items)
        (optional key.now [] (list_of (F.reads form.now)) (view value.now)) result }
{
    match member(value, key) {
        None => Ok(Vec::new(alloc)),
        Some(found) => list(alloc, form, found),
    }
}

/// The part at the one key of an object; none where the value has other keys, or no such part
/// there.
///
/// # Errors
/// Where there is no memory.
pub fn lone<'a, F: Form<'a>>(
    alloc: Global,
    form: &F,
    value: &Value<'a>,
    key: &str,
) -> Result<Option<F::Part>, AllocError>
    ensures { IfOk result (λ o. option_map F.seen o
        ≡ lone key.now (F.reads form.now) (view value.now)) }
{
    if !has_keys(value, &[key]) {
        return Ok(None);
    }
    match required(alloc, form, value, key) {
        Ok(part) => Ok(Some(part)),
        Err(PartError::NoPart) => Ok(None),
        Err(PartError::NoMemory) => Err(AllocError),
    }
}
