//! What a receiver has of a frame.

ghost use Rattle.std.specs.Prelude.{◌≡◌};
ghost use Rattle.frames.specs.Seen.{expected};
ghost use Rattle.frames.specs.Reading.{reading};
ghost use Rattle.touched_frames.specs.Arrived.{seen, arrived_as, IsCluster};

use frames::{Body, Expect, decode};
use node_grid::kind::{COLD, MALFORMED};
use node_grid::{Capacity, Nodes};

/// What a receiver has of a frame.
#[derive(Clone, Copy)]
pub enum Arrived<'a, const N: usize> {
    /// What the frame says, which isn't that its sender is cold.
    Good(Body<'a, N>),
    /// The kind of error that is found of what came, or of there being nothing.
    Bad(u8),
}

/// What a receiver has of bytes that came once, in time.
pub(crate) fn read<'a, const N: usize>(receiver: &Expect<N>, bytes: &'a [u8]) -> Arrived<'a, N>
where
    Nodes: Capacity<N>,
    requires { IsCluster N receiver.now.nodes receiver.now.m }
    ensures { seen receiver.now.nodes result
        ≡ arrived_as (reading (expected receiver.now) bytes.now) }
{
    let Some(frame) = decode(receiver, bytes) else {
        return Arrived::Bad(MALFORMED);
    };
    if frame.body.is_cold() {
        Arrived::Bad(COLD)
    } else {
        Arrived::Good(frame.body)
    }
}
