//! The entries of a log in one table, with the bytes of all in one place.

ghost use Rattle.std.specs.Prelude.{◌≡◌, ◌<◌, ◌++◌, ◌∷◌, [], length, get_or, IfOk, OnOk};
ghost use Rattle.node_alone.specs.Seen.{entry_view};
ghost use Rattle.node_alone.specs.Tabled.{delivery_view};

use crate::entry::Entry;
use std::alloc::{AllocError, Global};
use std::marker::Model;

/// What the table keeps of an entry: its bytes are those from `start` to `end` of the table's.
#[derive(Clone, Copy)]
struct Header {
    period: u32,
    slot: u8,
    from: u8,
    tick: u8,
    start: usize,
    end: usize,
}

/// An entry as the table lends it.
#[derive(Clone, Copy)]
pub(crate) struct Delivery<'t> {
    /// The period, and its slot.
    pub(crate) period: u32,
    pub(crate) slot: u8,
    /// The sender.
    pub(crate) from: u8,
    /// The tick of the slot, 0 to 30.
    pub(crate) tick: u8,
    /// The bytes that arrived.
    pub(crate) bytes: &'t [u8],
}

/// Entries, one after another.
#[derive(Drop)]
pub(crate) struct Table {
    headers: Vec<Header>,
    bytes: Vec<u8>,
}

// Clauses see the list of entries.
impl Model for Table {
    ghost use Rattle.std.specs.Prelude.{List, All, map, length};
    ghost use Rattle.node_alone.specs.Log.{Entry};
    ghost use Rattle.node_alone.specs.Tabled.{header_view, IsWithin};

    ghost Value = { List Entry };

    ghost view = { λ t. map (header_view t.bytes.items) t.headers.items };

    ghost invariant = { λ t. All (IsWithin (length t.bytes.items)) t.headers.items };
}

impl Table {
    /// A table without entries, with room for so many.
    pub(crate) fn with_capacity(alloc: Global, count: usize) -> Result<Table, AllocError>
        ensures { IfOk result (λ t. t ≡ []) }
    {
        Ok(Table {
            headers: Vec::with_capacity(alloc, count)?,
            bytes: Vec::new(alloc),
        })
    }

    /// Puts an entry behind the others.
    pub(crate) fn push(&mut self, entry: &Entry) -> Result<(), AllocError>
        ensures { OnOk result (self.new ≡ self.old ++ entry_view entry.now ∷ []) }
    {
        let start = self.bytes.len();
        self.bytes.extend_from_slice(entry.bytes.as_slice())?;
        let header = Header {
            period: entry.period,
            slot: entry.slot,
            from: entry.from,
            tick: entry.tick,
            start,
            end: self.bytes.len(),
        };
        self.headers.push(header)?;
        Ok(())
    }

    /// The number of entries.
    pub(crate) fn len(&self) -> usize
        ensures { result ≡ length self.now }
    {
        self.headers.len()
    }

    /// The entry at a place.
    pub(crate) fn entry(&self, place: usize) -> Delivery<'_>
        requires { place < length self.now }
        ensures { delivery_view result ≡ get_or self.now place (delivery_view result) }
    {
        let header = &self.headers[place];
        Delivery {
            period: header.period,
            slot: header.slot,
            from: header.from,
            tick: header.tick,
            bytes: &self.bytes[header.start..header.end],
        }
    }
}
