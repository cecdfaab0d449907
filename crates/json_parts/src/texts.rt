//! The JSON value that bytes are.
ghost use Rattle.std.specs.Prelude.{◌≡◌, Some, None, IfOk, IsErrOf};
ghost use Rattle.json.specs.Value.{value_view, items_view, members_view};
ghost use Rattle.serde_json.specs.Data.{Data};
ghost use Rattle.json_parts.specs.Meaning.{view, tree_of, has_readings, items_have_readings};
ghost use Rattle.json_parts.specs.Meaning.{members_have_readings};
ghost use Rattle.json_parts.specs.Reading.{Reads};

use crate::numerals::has_reading;
use json::{Error, Reader, Scratch, Value};
use simdutf8::compat::from_utf8;
use std::alloc::Global;

/// How deep lists and objects may nest.
const MAX_DEPTH: usize = 127;

/// Why bytes give no JSON value.
#[derive(Clone, Copy)]
pub enum TextError {
    /// They are no JSON text, nest too deep, or hold a number beyond all floats.
    Unreadable,
    /// There is no memory for the value.
    NoMemory,
}

#[cycle(readings)]
fn has_readings(value: &Value<'_>) -> bool
    ensures { result ≡ has_readings (value_view value.now) }
{
    match value {
        Value::Number(text) => has_reading(*text),
        Value::Array(items) => items_have_readings(items),
        Value::Object(members) => members_have_readings(members),
        _ => true,
    }
}

#[cycle(readings)]
fn items_have_readings(items: &Vec<Value<'_>>) -> bool
    ensures { result ≡ items_have_readings (items_view items.now.items) }
{
    for item in items {
        if !has_readings(item) {
            return false;
        }
    }
    true
}

#[cycle(readings)]
fn members_have_readings(members: &Vec<(&str, Value<'_>)>) -> bool
    ensures { result ≡ members_have_readings (members_view members.now.items) }
{
    for member in members {
        if !has_readings(&member.1) {
            return false;
        }
    }
    true
}

/// The tree of a text, whose numbers are still to be read.
fn tree<'a>(alloc: Global, text: &'a str, scratch: &'a mut Scratch) -> Result<Value<'a>, TextError>
    ensures tree { IfOk result (λ v. tree_of text.now ≡ Some (value_view v)) }
    ensures unreadable { IsErrOf result TextError.Unreadable → tree_of text.now ≡ None }
{
    let Ok(mut reader) = Reader::new(text, scratch) else {
        return Err(TextError::NoMemory);
    };
    let value = match Value::read(alloc, &mut reader, MAX_DEPTH) {
        Ok(value) => value,
        Err(Error::OutOfMemory) => return Err(TextError::NoMemory),
        Err(Error::Invalid | Error::TooLong | Error::DuplicateKey) => {
            return Err(TextError::Unreadable);
        }
    };
    if reader.next().is_some() {
        return Err(TextError::Unreadable);
    }
    Ok(value)
}

/// The value that JSON text has. Its texts are borrowed from the bytes, or from `scratch` where
/// they have escapes.
///
/// # Errors
/// `Unreadable` exactly where the bytes are no JSON text; `NoMemory`.
pub fn value_of<'a>(
    alloc: Global,
    bytes: &'a [u8],
    scratch: &'a mut Scratch,
) -> Result<Value<'a>, TextError>
    ensures value { IfOk result (λ v. Reads bytes.now (view v)) }
    ensures unreadable { IsErrOf result TextError.Unreadable → (d : Data) → Reads bytes.now d → ⊥ }
{
    let Ok(text) = from_utf8(bytes) else {
        return Err(TextError::Unreadable);
    };
    let value = match tree(alloc, text, scratch) {
        Ok(value) => value,
        Err(error) => return Err(error),
    };
    if has_readings(&value) {
        Ok(value)
    } else {
        Err(TextError::Unreadable)
    }
}
