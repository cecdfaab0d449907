//! Room for the frames of a slot that several watches share.

ghost use Rattle.std.specs.Prelude.{◌≡◌};

use crate::arrival::Arrivals;
use node_grid::NoMemory;
use std::alloc::Global;

/// Room for the bytes of one frame of each sender, for watches that take their slots one after the
/// other: each has it for the time of its slot, by [`crate::SlotWatch::swap_rooms`] before and
/// after.
#[derive(Drop)]
pub struct Rooms {
    room: Vec<u8>,
}

impl Rooms {
    /// Room for frames of at most `frame_max` bytes of so many nodes.
    ///
    /// # Errors
    ///
    /// `NoMemory` where there is none.
    pub fn open(alloc: Global, nodes: u8, frame_max: usize) -> Result<Rooms, NoMemory> {
        let Some(size) = (nodes as usize).checked_mul(frame_max) else {
            return Err(NoMemory);
        };
        let Ok(room) = Vec::with_capacity(alloc, size) else {
            return Err(NoMemory);
        };
        Ok(Rooms { room })
    }

    /// Exchanges this room with that of the arrivals, where no bytes are kept.
    pub(crate) fn swap(&mut self, arrivals: &mut Arrivals)
        ensures { arrivals.new ≡ arrivals.old }
    {
        arrivals.swap_room(&mut self.room);
    }
}
