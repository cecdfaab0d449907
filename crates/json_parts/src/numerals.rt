//! Numbers as JSON text writes them.
ghost use Rattle.std.specs.Prelude.{◌≡◌, ◌<◌, ◌==◌, length, slice_index, IsTrue, is_some};
ghost use Rattle.std.specs.Prelude.{option_and_then};
ghost use Rattle.serde_json.specs.Find.{as_i64};
ghost use Rattle.serde_json.specs.Read.{number_of, number_from};

use fast_float::Numeral;

fn has_minus(bytes: &[u8]) -> bool
    ensures value { result ≡ (slice_index bytes.now 0 == 45) }
    ensures len { IsTrue result → 0 < length bytes.now }
{
    !bytes.is_empty() && bytes[0] == b'-'
}

/// The whole number in the range of 64 bits; none where there is a minus before a zero.
fn signed_whole(negative: bool, numeral: &Numeral<'_>) -> Option<i64>
    ensures { result ≡ option_and_then as_i64 (number_from negative numeral.now) }
{
    match numeral.to_i64(negative) {
        Some(whole) if !negative || whole < 0 => Some(whole),
        _ => None,
    }
}

/// Whether a 64-bit number or a finite float stands for the number.
fn is_readable(negative: bool, numeral: &Numeral<'_>) -> bool
    ensures { result ≡ is_some (number_from negative numeral.now) }
{
    if negative {
        signed_whole(true, numeral).is_some() || numeral.to_float::<f64>(true).is_finite()
    } else {
        numeral.to_u64().is_some() || numeral.to_float::<f64>(false).is_finite()
    }
}

/// The whole number in the range of 64 bits that a text of a number is; none for `-0`.
pub(crate) fn whole_number(text: &str) -> Option<i64>
    ensures { result ≡ option_and_then as_i64 (number_of text.now) }
{
    let bytes = text.as_bytes();
    if has_minus(bytes) {
        signed_whole(true, &Numeral::scan(&bytes[1..]))
    } else {
        signed_whole(false, &Numeral::scan(bytes))
    }
}

/// Whether the number that a text writes is no larger than each float.
pub(crate) fn has_reading(text: &str) -> bool
    ensures { result ≡ is_some (number_of text.now) }
{
    let bytes = text.as_bytes();
    if has_minus(bytes) {
        is_readable(true, &Numeral::scan(&bytes[1..]))
    } else {
        is_readable(false, &Numeral::scan(bytes))
    }
}
