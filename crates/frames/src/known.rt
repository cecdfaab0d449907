//! Reading frames that are known to be frames.

ghost use Rattle.std.specs.Prelude.{◌≡◌, ◌<◌, ◌≤◌, IsSome, Some};
ghost use Rattle.frames.specs.Spelling.{IsFrame, head_of};
ghost use Rattle.frames.specs.Reading.{reading, content_said};
ghost use Rattle.frames.specs.Checks.{IsSaid};
ghost use Rattle.frames.specs.Seen.{content, expected, number_of, HasWidth};

use crate::cells::{Cells, read_row};
use crate::encoding::HEADER;
use crate::frame::{Body, Expect, Frame};
use crate::kind::Kind;
use crate::values::Values;
use node_grid::{Capacity, Nodes};

/// The body of a kind that the bytes are known to be. No entry is looked at.
fn known_body<'a, const N: usize>(expect: &Expect<N>, kind: Kind, bytes: &'a [u8]) -> Body<'a, N>
where
    Nodes: Capacity<N>,
    requires some_nodes { 0 < expect.now.nodes }
    requires nodes { expect.now.nodes ≤ N }
    requires said { IsSaid (expected expect.now)
        (content_said (expected expect.now) (number_of kind) bytes.now) bytes.now }
    ensures says { content expect.now.nodes result
        ≡ content_said (expected expect.now) (number_of kind) bytes.now }
    ensures widths { HasWidth expect.now.nodes result }
{
    match kind {
        Kind::State => Body::State(bytes),
        Kind::Done0 => Body::Done0(bytes[0]),
        Kind::DoneRelay => Body::DoneRelay(Cells::over(bytes, 2)),
        Kind::Data => Body::Data(Values::over(bytes)),
        Kind::Report0 => Body::Report0(read_row(bytes, expect.nodes)),
        Kind::ReportRelay => Body::ReportRelay(Cells::over(bytes, expect.row_width())),
        Kind::Cold => Body::Cold,
    }
}

/// The frame that the bytes are for what is expected, where `decode` found one before.
///
/// Nothing is checked again, and no entry is looked at.
pub fn decode_known<'a, const N: usize>(expect: &Expect<N>, bytes: &'a [u8]) -> Frame<'a, N>
where
    Nodes: Capacity<N>,
    requires some_nodes { 0 < expect.now.nodes }
    requires nodes { expect.now.nodes ≤ N }
    requires known { IsSome (reading (expected expect.now) bytes.now) }
    ensures head { result.head ≡ head_of (expected expect.now) }
    ensures frame { IsFrame (expected expect.now) (content expect.now.nodes result.body) bytes.now }
    ensures widths { HasWidth expect.now.nodes result.body }
    ensures reading { Some (content expect.now.nodes result.body)
        ≡ reading (expected expect.now) bytes.now }
{
    let (front, body) = bytes.split_at(HEADER);
    Frame {
        head: expect.head(),
        body: known_body(expect, Kind::numbered(front[3]), body),
    }
}
