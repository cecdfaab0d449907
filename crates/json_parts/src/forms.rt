//! Forms of parts that are found everywhere.
ghost use Rattle.std.specs.Prelude.{◌≡◌, ℕ, ℤ, List, string_bytes, None, option_map};
ghost use Rattle.serde_json.specs.Find.{as_str};
ghost use Rattle.json_parts.specs.Meaning.{view};
ghost use Rattle.json_parts.specs.Reading.{whole, list_of, optional};
ghost use Rattle.json_parts.specs.Part.{Gives};

use crate::error::PartError;
use crate::reading::{Form, list};
use crate::values::{member, text, whole};
use json::Value;
use std::alloc::Global;

/// A whole number in the range of 64 bits.
pub struct Number;

impl<'a> Form<'a> for Number {
    type Part = i64;

    ghost Meaning = { ℤ };

    ghost seen = { λ number. number };

    ghost reads = { λ _ d. whole d };

    fn read(&self, _alloc: Global, value: &Value<'a>) -> Result<i64, PartError> {
        whole(value).ok_or(PartError::NoPart)
    }
}

/// A list of such numbers.
pub struct Numbers;

impl<'a> Form<'a> for Numbers {
    type Part = Vec<i64>;

    ghost Meaning = { List ℤ };

    ghost seen = { λ numbers. numbers.items };

    ghost reads = { λ _ d. list_of whole d };

    fn read(&self, alloc: Global, value: &Value<'a>) -> Result<Vec<i64>, PartError> {
        list(alloc, &Number, value)
    }
}

/// A text.
pub struct Text;

impl<'a> Form<'a> for Text {
    type Part = String;

    ghost Meaning = { List ℕ };

    ghost seen = { λ text. string_bytes text };

    ghost reads = { λ _ d. as_str d };

    fn read(&self, alloc: Global, value: &Value<'a>) -> Result<String, PartError> {
        let found = text(value).ok_or(PartError::NoPart)?;
        Ok(String::from_str(alloc, found)?)
    }
}

/// The number at a key, or the default where the key is missing.
///
/// # Errors
/// `NoPart` exactly where the key is there and its value is no such number.
pub fn number_or(value: &Value<'_>, key: &str, default: i64) -> Result<i64, PartError>
    ensures { Gives (λ z. z) (optional key.now default whole (view value.now)) result }
{
    match member(value, key) {
        None => Ok(default),
        Some(found) => whole(found).ok_or(PartError::NoPart),
    }
}
