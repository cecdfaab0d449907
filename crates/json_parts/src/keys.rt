//! Which keys an object has.
ghost use Rattle.std.specs.Prelude.{◌≡◌, map};
ghost use Rattle.std.specs.List.{list_all};
ghost use Rattle.json_parts.specs.Meaning.{view};
ghost use Rattle.json_parts.specs.Reading.{is_among, has_keys};

use json::Value;

/// Whether the key is one of these names.
fn is_name(key: &str, names: &[&str]) -> bool
    ensures { result ≡ is_among (map (λ name. name.now) names.now) key.now }
{
    for name in names {
        if key == *name {
            return true;
        }
    }
    false
}

/// Whether each key is one of these names.
fn are_names(members: &[(&str, Value<'_>)], names: &[&str]) -> bool
    ensures { result ≡ list_all (λ m. is_among (map (λ name. name.now) names.now) m.0.now)
        members.now }
{
    members.iter().all(|member| is_name(member.0, names))
}

/// Whether the value is an object, and each key of it one of these names.
pub fn has_keys(value: &Value<'_>, names: &[&str]) -> bool
    ensures { result ≡ has_keys (map (λ name. name.now) names.now) (view value.now) }
{
    match value {
        Value::Object(members) => are_names(members, names),
        _ => false,
    }
}
