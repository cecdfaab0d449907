//! Lists as JSON values.
ghost use Rattle.std.specs.Prelude.{◌≡◌, Some, IfOk, map};
ghost use Rattle.serde_json.specs.View.{view};
ghost use Rattle.json_parts.specs.Reading.{whole, list_of};
ghost use Rattle.scenario.specs.Seen.{numbers_view};
ghost use Rattle.scenario_reading.specs.Keys.{numbers_at};

use scenario::NumbersPart;
use serde_json::{Value, json};
use std::alloc::{AllocError, Global};

/// A number.
pub(crate) fn number(n: i64) -> Value
    ensures { whole (view result) ≡ Some n }
{
    Value::from(n)
}

/// A list of numbers.
pub(crate) fn numbers(alloc: Global, numbers: &[i64]) -> Result<Value, AllocError>
    ensures { IfOk result (λ v. list_of whole (view v) ≡ Some numbers.now) }
{
    let mut values = Vec::new(alloc);
    for n in numbers {
        values.push(number(*n))?;
    }
    Ok(Value::Array(values))
}

/// A list of lists of numbers.
pub(crate) fn rows(alloc: Global, rows: &[Vec<i64>]) -> Result<Value, AllocError>
    ensures { IfOk result (λ v. list_of (list_of whole) (view v)
        ≡ Some (map (λ row. row.items) rows.now)) }
{
    let mut values = Vec::new(alloc);
    for row in rows {
        values.push(numbers(alloc, row.as_slice())?)?;
    }
    Ok(Value::Array(values))
}

/// The text `all`, or a list of numbers.
pub(crate) fn all_or_numbers(alloc: Global, part: &NumbersPart) -> Result<Value, AllocError>
    ensures { IfOk result (λ v. numbers_at (view v) ≡ Some (numbers_view part.now)) }
{
    match part {
        NumbersPart::All => json!(in alloc; "all"),
        NumbersPart::These(these) => numbers(alloc, these.as_slice()),
    }
}
