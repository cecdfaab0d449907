ghost use Rattle.std.specs.Prelude.{◌≡◌, ◌-◌, ◌<◌, ◌∷◌, [], take, drop, true};
ghost use Rattle.std.specs.Prelude.{replicate, slice_index, slice_set};
ghost use Rattle.node_grid.specs.NodeSet.{has_id, with_id};
ghost use Rattle.relay_walk.specs.Walking.{IsMoved, HaveNext, HaveLast};

use node_grid::{Capacity, NodeSet, Nodes};

/// The frames of a relay round, all in one room, and how far each is read.
#[derive(Clone, Copy)]
pub struct Round<'a, const N: usize> {
    /// The room in which all frames stand.
    room: &'a [u8],
    /// Where the entries of each member's frame begin.
    begins: [usize; N],
    /// Where the next entry of each begins.
    next: [usize; N],
    /// The members whose frames came.
    present: NodeSet<N>,
    /// The bytes of an entry.
    width: usize,
    /// The bytes of a frame's entries.
    size: usize,
}

impl<'a, const N: usize> Round<'a, N> {
    /// A round with `size` bytes of entries a frame, `width` bytes each, of which no frame came
    /// yet.
    pub fn open(room: &'a [u8], width: usize, size: usize) -> Round<'a, N>
    where
        Nodes: Capacity<N>,
        ensures none { result.present ≡ [] }
        ensures begins { result.begins ≡ replicate N 0 }
        ensures next { result.next ≡ replicate N 0 }
        ensures room { result.room.now ≡ room.now }
        ensures width { result.width ≡ width }
        ensures size { result.size ≡ size }
    {
        Round {
            room,
            begins: [0; N],
            next: [0; N],
            present: NodeSet::empty(),
            width,
            size,
        }
    }

    /// Takes up a member's frame, whose entries begin at a place of the room.
    pub fn put(&mut self, member: u8, begins: usize)
    where
        Nodes: Capacity<N>,
        requires member { member < N }
        ensures begins { self.new.begins ≡ slice_set self.old.begins member begins }
        ensures next { self.new.next ≡ slice_set self.old.next member begins }
        ensures present { self.new.present ≡ with_id N self.old.present member }
        ensures room { self.new.room.now ≡ self.old.room.now }
        ensures width { self.new.width ≡ self.old.width }
        ensures size { self.new.size ≡ self.old.size }
    {
        self.begins[member as usize] = begins;
        self.next[member as usize] = begins;
        self.present.put(member);
    }

    /// Begins to read all frames again.
    pub fn rewind(&mut self)
        ensures { self.new ≡ record self.old { next = self.old.begins } }
    {
        self.next = self.begins;
    }

    /// Whether a member's frame came.
    pub(crate) fn has_come(&self, member: u8) -> bool
        ensures { result ≡ has_id self.now.present member }
    {
        self.present.has(member)
    }

    /// Goes on by one entry of a member's frame.
    pub(crate) fn advance(&mut self, member: u8)
        requires more { HaveNext (member ∷ []) self.old }
        requires came { has_id self.old.present member ≡ true }
        ensures { IsMoved (member ∷ []) self.old self.new }
    {
        let at = self.next[member as usize];
        self.next[member as usize] = at + self.width;
    }

    /// The next entry of a member's frame.
    pub(crate) fn next_entry(&mut self, member: u8) -> &'a [u8]
        requires more { HaveNext (member ∷ []) self.old }
        requires came { has_id self.old.present member ≡ true }
        ensures entry { result.now
            ≡ take self.old.width (drop (slice_index self.old.next member) self.old.room.now) }
        ensures moved { IsMoved (member ∷ []) self.old self.new }
    {
        let at = self.next[member as usize];
        let end = at + self.width;
        self.advance(member);
        &self.room[at..end]
    }

    /// The entry of a member's frame that was read last.
    pub(crate) fn last_entry(&self, member: u8) -> &'a [u8]
        requires read { HaveLast (member ∷ []) self.now }
        requires came { has_id self.now.present member ≡ true }
        ensures { result.now ≡ take self.now.width
            (drop (slice_index self.now.next member - self.now.width) self.now.room.now) }
    {
        let end = self.next[member as usize];
        &self.room[end - self.width..end]
    }
}
