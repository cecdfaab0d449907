//! The frames of a relay round, one after another in one room, and read side by side.

ghost use Rattle.std.specs.Prelude.{ℕ, List, [], ◌≡◌, ◌+◌, ◌-◌, ◌*◌, ◌<◌, ◌≤◌, true, IfOk};
ghost use Rattle.std.specs.Prelude.{length, slice_index, if◌then◌else◌};
ghost use Rattle.node_grid.specs.NodeSet.{has_id, with_id, without_id};
ghost use Rattle.omh.specs.Written.{IsSmall};
ghost use Rattle.omh_paths.specs.Paths.{path_count};
ghost use Rattle.relay_walk.specs.Walking.{IsWalk};

use crate::seats::{Seat, size_of};
use node_grid::NodeSet;
use omh_paths::{Wrapped, count_paths};
use relay_walk::Round;
use std::alloc::{AllocError, Global};

/// The bytes of an entry: its tag and its item.
const WIDTH: usize = 2;

/// The frames of the relay round in which a node is, of which those of some other members came:
/// each of sixteen nodes has room for as many entries.
#[derive(Drop)]
pub struct Relays {
    seat: Seat,
    came: NodeSet<16>,
    entries: usize,
    room: Vec<u8>,
    ghost few: { entries ≤ 65536 },
    ghost count: { entries ≡ path_count (length seat.members - 1) seat.round },
    ghost whole: { length room.items ≡ 32 * entries },
    ghost tagged: { (j : ℕ) → slice_index room.items (2 * j) < 254 },
    ghost others: { (q : ℕ) → has_id came q ≡ true
        → has_id (without_id seat.members seat.me) q ≡ true },
}

/// Room for so many entries of each of sixteen nodes, with nothing written.
fn blank(alloc: Global, entries: usize) -> Result<Vec<u8>, AllocError>
    requires { entries ≤ 65536 }
    ensures whole { IfOk result (λ room. length room.items ≡ 32 * entries) }
    ensures tagged { IfOk result (λ room. (j : ℕ) → slice_index room.items (2 * j) < 254) }
{
    let mut room = Vec::new(alloc);
    room.resize(WIDTH * 16 * entries, 0)?;
    Ok(room)
}

/// Writes an entry at a place of the room.
fn write_entry(room: &mut [u8], place: usize, value: Wrapped<u8>)
    requires known { IsSmall 3 value }
    requires within { 2 * place + 2 ≤ length room.old }
    requires tagged { (j : ℕ) → slice_index room.old (2 * j) < 254 }
    ensures tagged { (j : ℕ) → slice_index room.new (2 * j) < 254 }
    ensures length { length room.new ≡ length room.old }
{
    let (tag, item) = match value {
        Wrapped::Plain(item) => (0, item),
        Wrapped::Fault(count) => (count, 0),
    };
    room[WIDTH * place] = tag;
    room[WIDTH * place + 1] = item;
}

impl Relays {
    /// Room for what sixteen nodes say in the relay round in which a node is. None came yet.
    pub fn open(alloc: Global, seat: Seat) -> Result<Relays, AllocError>
        ensures { IfOk result (λ relays. (relays.came ≡ []) × (relays.seat ≡ seat)) }
    {
        let entries = count_paths(size_of(&seat.members).saturating_sub(1), seat.round);
        let room = blank(alloc, entries)?;
        Ok(Relays {
            seat,
            came: NodeSet::empty(),
            entries,
            room,
        })
    }

    /// How many entries a frame has.
    pub fn entries(&self) -> usize
        ensures { result ≡ self.now.entries }
    {
        self.entries
    }

    /// Takes up that the frame of another member came.
    pub fn take(&mut self, sender: u8)
        ensures came { self.new.came ≡ (if has_id (without_id self.old.seat.members
            self.old.seat.me) sender then with_id 16 self.old.came sender else self.old.came) }
        ensures entries { self.new.entries ≡ self.old.entries }
        ensures seat { self.new.seat ≡ self.old.seat }
    {
        if self.seat.is_other(sender) {
            self.came.put(sender);
        }
    }

    /// Writes an entry of a node's frame, if there is room for it.
    pub fn write(&mut self, sender: u8, place: usize, value: Wrapped<u8>)
        requires { IsSmall 3 value }
        ensures came { self.new.came ≡ self.old.came }
        ensures entries { self.new.entries ≡ self.old.entries }
        ensures seat { self.new.seat ≡ self.old.seat }
    {
        if sender < 16 && place < self.entries {
            let at = sender as usize * self.entries + place;
            write_entry(self.room.as_mut_slice(), at, value);
        }
    }

    /// The frames that came, to be read side by side.
    pub fn round(&self) -> Round<'_, 16>
        ensures { (members others : List ℕ) (r : ℕ)
            → self.now.entries ≡ path_count (length members - 1) r
            → ((q : ℕ) → has_id self.now.came q ≡ true → has_id others q ≡ true)
            → IsWalk members others r 0 result }
    {
        let size = WIDTH * self.entries;
        let mut round = Round::open(self.room.as_slice(), WIDTH, size);
        for sender in 0..16u8 {
            if self.came.has(sender) {
                round.put(sender, sender as usize * size);
            }
        }
        round
    }
}
