//! Bytes in room that a buffer has.

ghost use Rattle.std.specs.Prelude.{◌≡◌, ◌+◌, ◌≤◌, length, take, vec_capacity};
ghost use Rattle.error_detect.specs.Putting.{IsPut};

use frames::write_at;

/// Makes a buffer at least so long, where it has room for that.
pub(crate) fn lengthen(bytes: &mut Vec<u8>, size: usize)
    requires room { size ≤ vec_capacity bytes.old }
    ensures long { size ≤ length bytes.new.items }
    ensures longer { length bytes.old.items ≤ length bytes.new.items }
    ensures front { take (length bytes.old.items) bytes.new.items ≡ bytes.old.items }
    ensures room { vec_capacity bytes.old ≤ vec_capacity bytes.new }
{
    if bytes.len() < size {
        let _within_room = bytes.resize(size, 0).is_ok();
    }
}

/// Writes bytes from a place of a buffer on that has room for them.
pub(crate) fn put_at(out: &mut Vec<u8>, at: usize, bytes: &[u8])
    requires room { at + length bytes.now ≤ vec_capacity out.old }
    ensures put { IsPut at bytes.now out.old.items out.new.items }
    ensures room { vec_capacity out.old ≤ vec_capacity out.new }
{
    lengthen(out, at + bytes.len());
    write_at(out.as_mut_slice(), at, bytes);
}
