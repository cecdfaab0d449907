//! The bytes that a text is in hexadecimal.
//!
//! It is read in two passes without a branch in either, so that many digits are read at once.
ghost use Rattle.std.specs.Prelude.{◌≡◌, ◌*◌, ℕ, true, false, None, Some, Ok, IfOk, length};
ghost use Rattle.std.specs.Prelude.{option_map};
ghost use Rattle.std.specs.List.{list_all};
ghost use Rattle.std.specs.Result.{result_ok};
ghost use Rattle.hex.specs.Hex.{decode_of, decode_pairs, is_hex_digit, pair_value};

use std::alloc::{AllocError, Global};

/// Whether the character is a digit, in either case.
fn is_digit(code: u8) -> bool
    ensures { result ≡ is_hex_digit code }
{
    b'0' <= code && code <= b'9' || b'a' <= code && code <= b'f' || b'A' <= code && code <= b'F'
}

fn are_digits(digits: &[u8]) -> bool
    ensures { result ≡ list_all is_hex_digit digits.now }
{
    let mut all = true;
    for code in digits {
        all &= is_digit(*code);
    }
    all
}

/// The byte of two digits. Their values are found together: the low bits of a letter's code are 9
/// less than its value.
fn byte_of(high: u8, low: u8) -> u8
    requires high { is_hex_digit high ≡ true }
    requires low { is_hex_digit low ≡ true }
    ensures { (place : ℕ) → pair_value high low place ≡ Ok result }
{
    let codes = u16::from(high) | (u16::from(low) << 8);
    let values = (codes & 0x0f0f) + 9 * ((codes >> 6) & 0x0101);
    (((values << 4) | (values >> 8)) & 0xff) as u8
}

/// Writes the bytes of pairs of digits.
fn decode_digits(digits: &[u8], bytes: &mut [u8])
    requires length { length digits.now ≡ 2 * length bytes.old }
    requires digits { list_all is_hex_digit digits.now ≡ true }
    ensures { decode_pairs 0 digits.now ≡ Ok bytes.new }
{
    for i in 0..bytes.len() {
        bytes[i] = byte_of(digits[2 * i], digits[2 * i + 1]);
    }
}

/// Writes the bytes of pairs of digits where all are digits, and answers whether they are.
fn decode_pairs(digits: &[u8], bytes: &mut [u8]) -> bool
    requires { length digits.now ≡ 2 * length bytes.old }
    ensures some { result ≡ true → result_ok (decode_pairs 0 digits.now) ≡ Some bytes.new }
    ensures none { result ≡ false → result_ok (decode_pairs 0 digits.now) ≡ None }
{
    if !are_digits(digits) {
        return false;
    }
    decode_digits(digits, bytes);
    true
}

/// The bytes that a text is in hexadecimal, in letters of either case.
///
/// # Errors
/// Where there is no memory.
pub fn bytes_of_hex(alloc: Global, text: &str) -> Result<Option<Vec<u8>>, AllocError>
    ensures { IfOk result (λ o. option_map (λ v. v.items) o ≡ result_ok (decode_of text.now)) }
{
    let digits = text.as_bytes();
    if digits.len() % 2 != 0 {
        return Ok(None);
    }
    let mut bytes = vec![in alloc; 0u8; digits.len() / 2]?;
    if decode_pairs(digits, bytes.as_mut_slice()) {
        Ok(Some(bytes))
    } else {
        Ok(None)
    }
}
