//! The values of data frames.

ghost use Rattle.std.specs.Prelude.{◌≡◌, ◌+◌, ◌*◌, ◌/◌, ◌%◌, ◌<◌, ◌≤◌, ◌==◌, length};
ghost use Rattle.std.specs.Prelude.{slice_index_or};
ghost use Rattle.std.specs.List.{flat_map};
ghost use Rattle.frames.specs.PieceLaws.{AreBytes};
ghost use Rattle.frames.specs.Reading.{piece, content_value, content_values};
ghost use Rattle.frames.specs.Spelling.{value_spelling};
ghost use Rattle.frames.specs.Writing.{pasted};

use crate::pieces::write_at;

/// The values of a data frame, as they stand in its bytes.
#[derive(Clone, Copy)]
pub struct Values<'a> {
    bytes: &'a [u8],
    ghost small: { AreBytes bytes.now },
    ghost whole: { length bytes.now % 8 ≡ 0 },
}

impl<'a> Values<'a> {
    /// Values of eight bytes each, as `put_value` wrote them.
    pub fn over(bytes: &'a [u8]) -> Values<'a>
        requires { length bytes.now % 8 ≡ 0 }
        ensures { result.bytes.now ≡ bytes.now }
    {
        Values { bytes }
    }

    /// The number of values.
    pub fn len(&self) -> usize
        ensures { result ≡ length (content_values self.now.bytes.now) }
    {
        self.bytes.len() / 8
    }

    /// Whether there is no value.
    pub fn is_empty(&self) -> bool
        ensures { result ≡ (length self.now.bytes.now == 0) }
    {
        self.bytes.is_empty()
    }

    /// The bytes of all values.
    pub(crate) fn bytes(&self) -> &[u8]
        ensures { flat_map value_spelling (content_values self.now.bytes.now) ≡ result.now }
    {
        self.bytes
    }

    /// Value `k`.
    pub fn at(&self, k: usize) -> i64
        requires { k < length (content_values self.now.bytes.now) }
        ensures { result ≡ slice_index_or (content_values self.now.bytes.now) k result }
    {
        read_value(self.bytes, k)
    }
}

/// Value `k` of these bytes.
pub(crate) fn read_value(bytes: &[u8], k: usize) -> i64
    requires { 8 * k + 8 ≤ length bytes.now }
    ensures { result ≡ content_value (piece 8 bytes.now k) }
{
    let at = 8 * k;
    i64::from_be_bytes([
        bytes[at],
        bytes[at + 1],
        bytes[at + 2],
        bytes[at + 3],
        bytes[at + 4],
        bytes[at + 5],
        bytes[at + 6],
        bytes[at + 7],
    ])
}

/// Writes value `k`, and leaves all else.
pub fn put_value(out: &mut [u8], k: usize, value: i64)
    requires { 8 * k + 8 ≤ length out.old }
    ensures { out.new ≡ pasted (8 * k) (value_spelling value) out.old }
{
    write_at(out, 8 * k, &value.to_be_bytes());
}
