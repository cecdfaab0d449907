//! Bytes that are gathered in a room of fixed size.
ghost use Rattle.std.specs.Prelude.{◌≡◌, ◌+◌, ◌<◌, ◌≤◌, ◌↔◌, true, false, IsTrue, [], ◌∷◌, ◌++◌};
ghost use Rattle.std.specs.Prelude.{length};

use std::marker::Model;

/// At most `ROOM` bytes, one after another. They are forgotten at no cost, since what lies behind
/// them is never read.
#[derive(Drop)]
pub struct Gathered<const ROOM: usize> {
    /// The bytes, and then what was there before.
    bytes: [u8; ROOM],
    /// How many bytes there are.
    len: usize,
}

// clauses see the bytes, from the first to the last
impl<const ROOM: usize> Model for Gathered<ROOM> {
    ghost use Rattle.std.specs.Prelude.{◌≤◌, ℕ, List, take};

    ghost Value = { List ℕ };

    ghost view = { λ gathered. take gathered.len gathered.bytes };

    ghost invariant = { λ gathered. gathered.len ≤ ROOM };
}

impl<const ROOM: usize> Gathered<ROOM> {
    /// No bytes.
    pub(crate) fn new() -> Self
        ensures { result ≡ [] }
    {
        Gathered {
            bytes: [0; ROOM],
            len: 0,
        }
    }

    /// Appends a byte, and tells whether there was room. Where there is none, nothing changes.
    pub(crate) fn push(&mut self, byte: u8) -> bool
        ensures room { IsTrue result ↔ (length self.old < ROOM) }
        ensures pushed { result ≡ true → self.new ≡ self.old ++ byte ∷ [] }
        ensures full { result ≡ false → self.new ≡ self.old }
    {
        if self.len >= ROOM {
            return false;
        }
        self.bytes[self.len] = byte;
        self.len += 1;
        true
    }

    /// Appends bytes, and tells whether there was room for them all. Where there is none, nothing
    /// changes.
    pub(crate) fn extend(&mut self, bytes: &[u8]) -> bool
        ensures room { IsTrue result ↔ (length self.old + length bytes.now ≤ ROOM) }
        ensures extended { result ≡ true → self.new ≡ self.old ++ bytes.now }
        ensures full { result ≡ false → self.new ≡ self.old }
    {
        if bytes.len() > ROOM - self.len {
            return false;
        }
        let end = self.len + bytes.len();
        let room = &mut self.bytes[..];
        room[self.len..end].copy_from_slice(bytes);
        self.len = end;
        true
    }

    /// The bytes.
    pub(crate) fn as_slice(&self) -> &[u8]
        ensures { result.now ≡ self.now }
    {
        &self.bytes[..self.len]
    }

    /// Forgets the bytes.
    pub(crate) fn clear(&mut self)
        ensures { self.new ≡ [] }
    {
        self.len = 0;
    }
}
