//! Pieces of a body that are written and checked.

ghost use Rattle.std.specs.Prelude.{◌≡◌, ◌+◌, ◌≤◌, length, take, drop};
ghost use Rattle.std.specs.Int.{w64, from_be_bytes};
ghost use Rattle.frames.specs.Checks.{are_masks, are_zero};
ghost use Rattle.frames.specs.Writing.{pasted};

/// Writes `bytes` from `at` on.
pub fn write_at(out: &mut [u8], at: usize, bytes: &[u8])
    requires { at + length bytes.now ≤ length out.old }
    ensures { out.new ≡ pasted at bytes.now out.old }
{
    let end = at + bytes.len();
    out[at..end].copy_from_slice(bytes);
}

/// The eight bytes from `at` on, as one number.
fn word_at(bytes: &[u8], at: usize) -> u64
    requires { at + 8 ≤ length bytes.now }
    ensures { result ≡ from_be_bytes w64 (take 8 (drop at bytes.now)) }
{
    let mut word = [0; 8];
    word.copy_from_slice(&bytes[at..at + 8]);
    u64::from_be_bytes(word)
}

/// Whether each byte is 0, one by one.
fn is_each_zero(bytes: &[u8]) -> bool
    ensures { result ≡ are_zero bytes.now }
{
    bytes.iter().all(|b| *b == 0)
}

/// Whether all bytes are 0: eight at a time, and then one by one.
pub(crate) fn are_zero(bytes: &[u8]) -> bool
    ensures { result ≡ are_zero bytes.now }
{
    let words = bytes.len() / 8;
    for k in 0..words {
        if word_at(bytes, 8 * k) != 0 {
            return false;
        }
    }
    is_each_zero(&bytes[8 * words..])
}

/// The high bytes of four masks.
const HIGH: u64 = 0xff00_ff00_ff00_ff00;

/// Whether the bytes are masks below 256, two bytes each: four masks at a time, and then one by
/// one.
fn are_small(bytes: &[u8]) -> bool
    ensures { result ≡ are_masks 1 bytes.now }
{
    let words = bytes.len() / 8;
    for k in 0..words {
        if word_at(bytes, 8 * k) & HIGH != 0 {
            return false;
        }
    }
    for k in 4 * words..bytes.len() / 2 {
        if bytes[2 * k] != 0 {
            return false;
        }
    }
    true
}

/// Whether the bytes are masks of the version, two bytes each: any in version 2, and below 256 in
/// version 1.
pub(crate) fn are_masks(version: u8, bytes: &[u8]) -> bool
    ensures { result ≡ are_masks version bytes.now }
{
    version != 1 || are_small(bytes)
}
