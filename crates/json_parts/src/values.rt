//! Looking into a JSON value over borrowed text.
ghost use Rattle.std.specs.Prelude.{◌≡◌, option_map, is_some};
ghost use Rattle.serde_json.specs.Find.{get, as_str, as_array, as_object};
ghost use Rattle.json.specs.Value.{items_view};
ghost use Rattle.json_parts.specs.Meaning.{view, items_data};
ghost use Rattle.json_parts.specs.Reading.{whole};

use crate::numerals::whole_number;
use json::Value;

/// The value at a key of an object; the last one where the key comes twice.
pub fn member<'v, 'a>(value: &'v Value<'a>, key: &str) -> Option<&'v Value<'a>>
    ensures { option_map (λ v. view v.now) result ≡ get key.now (view value.now) }
{
    value.get(key)
}

/// The items of a list.
pub fn items<'v, 'a>(value: &'v Value<'a>) -> Option<&'v Vec<Value<'a>>>
    ensures { option_map (λ vs. items_data (items_view vs.now.items)) result
        ≡ as_array (view value.now) }
{
    match value {
        Value::Array(items) => Some(items),
        _ => None,
    }
}

/// Whether the value is an object.
pub fn is_object(value: &Value<'_>) -> bool
    ensures { result ≡ is_some (as_object (view value.now)) }
{
    matches!(value, Value::Object(_))
}

/// The text that the value is.
pub fn text<'a>(value: &Value<'a>) -> Option<&'a str>
    ensures { option_map (λ s. s.now) result ≡ as_str (view value.now) }
{
    value.as_str()
}

/// The whole number in the range of 64 bits that the value is; none where it is written with a
/// point, an exponent or as `-0`.
pub fn whole(value: &Value<'_>) -> Option<i64>
    ensures { result ≡ whole (view value.now) }
{
    match value.as_number() {
        Some(text) => whole_number(text),
        None => None,
    }
}
