//! The words of a line: where they stand, and the numbers, values and bytes that they are.

ghost use Rattle.std.specs.Prelude.{◌≡◌, ◌+◌, ◌-◌, ◌*◌, ◌^◌, ◌<◌, ◌≤◌, ◌∷◌, IfSome};
ghost use Rattle.std.specs.Prelude.{length, min, option_map, take};
ghost use Rattle.frames.specs.Content.{IsValue};
ghost use Rattle.live_node.specs.Event.{words, of_digits, number_in, value_in, bytes_in};
ghost use Rattle.live_node.specs.Seen.{words_behind};

use hex::decode_to_slice;
use itoa::Buffer;
use memchr::memchr;

/// How far from 0 a value may be.
const VALUE_LIMIT: u64 = 1 << 42;

/// The first word of a line, and what stands behind the space after it: nothing where it is the
/// only one.
pub(crate) fn split(line: &[u8]) -> (&[u8], Option<&[u8]>)
    ensures words { words line.now
        ≡ result.0.now ∷ words_behind (option_map (λ r. r.now) result.1) }
    ensures short { length result.0.now ≤ length line.now }
    ensures rest { IfSome result.1 (λ r. length r.now ≤ length line.now) }
{
    match memchr(b' ', line) {
        Some(place) => (&line[..place], Some(&line[place + 1..])),
        None => (line, None),
    }
}

/// The number whose digits these are; the greatest of the type where it is above that.
fn of_digits(word: &[u8]) -> u64
    ensures { result ≡ min (of_digits word.now) (2 ^ 64 - 1) }
{
    let mut number: u64 = 0;
    for code in word {
        let digit = u64::from(code.saturating_sub(b'0'));
        number = number.saturating_mul(10).saturating_add(digit);
    }
    number
}

/// The number whose decimal text a word is, without zeros before it, where it is at most `most`.
pub(crate) fn number_in(word: &[u8], most: u64) -> Option<u64>
    requires { most < 2 ^ 64 - 1 }
    ensures number { result ≡ number_in most word.now }
    ensures small { IfSome result (λ n. n ≤ most) }
{
    let number = of_digits(word);
    let mut buffer = Buffer::new();
    if number <= most && buffer.format(number).as_bytes() == word {
        Some(number)
    } else {
        None
    }
}

/// The value that a word is, behind a minus sign where it is negative.
pub(crate) fn value_in(word: &[u8]) -> Option<i64>
    ensures value { result ≡ value_in word.now }
    ensures small { IfSome result IsValue }
{
    if word.is_empty() {
        return None;
    }
    if word[0] != b'-' {
        return Some(number_in(word, VALUE_LIMIT)? as i64);
    }
    let size = number_in(&word[1..], VALUE_LIMIT)?;
    if size == 0 {
        None
    } else {
        Some(-(size as i64))
    }
}

/// Puts the bytes that a word is in hexadecimal at the front of the room, and answers how many they
/// are.
pub(crate) fn bytes_in(word: &[u8], room: &mut [u8]) -> Option<usize>
    requires fits { length word.now ≤ 2 * length room.old + 1 }
    ensures bytes { option_map (λ n. take n room.new) result ≡ bytes_in word.now }
    ensures within { IfSome result (λ n. n ≤ length room.old) }
    ensures room { length room.new ≡ length room.old }
{
    if word.is_empty() {
        return None;
    }
    if word == b"-".as_slice() {
        return Some(0);
    }
    let count = word.len() / 2;
    match decode_to_slice(word, &mut room[..count]) {
        Ok(()) => Some(count),
        Err(_) => None,
    }
}
