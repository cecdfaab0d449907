//! A frame of each kind, read and written again, cut, with a byte more, and damaged.

use frames::{Body, Expect, Frame, decode, encode};
use node_grid::NodeSet;
use std::io;
use worked_rows::{row, rows};

/// A frame of each kind, and what is expected of its sender.
#[derive(Clone, Copy)]
struct Vector {
    kind: &'static str,
    expect: Expect<8>,
    bytes: &'static [u8],
}

/// What is expected in this slot of this period from this sender, of so many nodes, of which all are
/// members for which there is room, with so many relay rounds.
fn expect(nodes: u8, m: u8, period: u32, slot: u8, sender: u8) -> Expect<8> {
    Expect {
        version: 1,
        nodes,
        m,
        period,
        slot,
        sender,
        members: NodeSet::full(nodes.min(8)),
        state_len: 2 + 4 * nodes as u16,
        tasks: 0,
        due: 1,
    }
}

/// Node 2 claims nothing.
const CLAIM: [u8; 15] = *b"MF\x01\x02\0\0\0\0\x02\x01\0\0\0\x01\xff";

/// Node 1 relays the rows of nodes 0, 2 and 3, of which it heard nothing of the last.
const RELAY: [u8; 41] =
    *b"MF\x01\x06\0\0\0\0\x01\x05\0\0\0\x1b\0\0\0\0\0\0\0\0\0\0\0\0\0\0\0\0\0\0\x01\0\0\0\0\0\0\0\0";

fn vectors() -> [Vector; 6] {
    [
        Vector {
            kind: "a state",
            expect: expect(3, 0, 0, 0, 0),
            bytes: b"MF\x01\x01\0\0\0\0\0\0\0\0\0\x0e\0\x07\0\0\0\0\0\0\0\0\0\0\0\0",
        },
        Vector {
            kind: "a claim",
            expect: expect(4, 0, 0, 1, 2),
            bytes: &CLAIM,
        },
        Vector {
            kind: "values",
            expect: expect(4, 1, 0, 3, 3),
            bytes: b"MF\x01\x04\0\0\0\0\x03\x03\0\0\0\x08\0\0\0\0\0\0\0\x0c",
        },
        Vector {
            kind: "a row",
            expect: expect(4, 1, 0, 4, 0),
            bytes: b"MF\x01\x05\0\0\0\0\0\x04\0\0\0\x08\0\0\0\0\0\0\0\x80",
        },
        Vector {
            kind: "relayed rows",
            expect: expect(4, 1, 0, 5, 1),
            bytes: &RELAY,
        },
        Vector {
            kind: "a cold node's frame",
            expect: expect(5, 0, 1, 0, 4),
            bytes: b"MF\x01\x07\0\0\0\x01\x04\0\0\0\0\0",
        },
    ]
}

/// What the bytes are a frame of.
fn read<'a>(expect: &Expect<8>, bytes: &'a [u8]) -> Option<Frame<'a, 8>> {
    if expect.nodes == 0 || expect.nodes > 8 || expect.m > 3 {
        return None;
    }
    decode(expect, bytes)
}

/// The name of what a frame says.
fn name_of(frame: &Frame<8>) -> &'static str {
    match frame.body {
        Body::State(_) => "a state",
        Body::Done0(_) => "a claim",
        Body::DoneRelay(_) => "relayed claims",
        Body::Data(_) => "values",
        Body::Report0(_) => "a row",
        Body::ReportRelay(_) => "relayed rows",
        Body::Cold => "a cold node's frame",
    }
}

/// How many of the proper prefixes of the bytes are frames.
fn frames_among_prefixes(expect: &Expect<8>, bytes: &[u8]) -> usize {
    let mut count = 0usize;
    for len in 0..bytes.len() {
        if read(expect, &bytes[..len]).is_some() {
            count = count.saturating_add(1);
        }
    }
    count
}

/// Whether the bytes with one more behind them are a frame.
fn is_frame_with_one_more(expect: &Expect<8>, bytes: &[u8]) -> bool {
    let mut longer = [0; 64];
    let len = bytes.len();
    if len >= longer.len() {
        return false;
    }
    longer[..len].copy_from_slice(bytes);
    read(expect, &longer[..len + 1]).is_some()
}

/// Whether the frame that the bytes are is written as these bytes.
fn is_written_again(expect: &Expect<8>, bytes: &[u8]) -> bool {
    let mut out = [0; 64];
    if bytes.len() > out.len() || expect.nodes == 0 || expect.nodes > 8 || expect.m > 3 {
        return false;
    }
    let Some(frame) = decode(expect, bytes) else {
        return false;
    };
    let size = encode(&frame, expect.nodes, &mut out);
    &out[..size] == bytes
}

/// The name of what the bytes are a frame of.
fn name_read(expect: &Expect<8>, bytes: &[u8]) -> &'static str {
    match read(expect, bytes) {
        Some(frame) => name_of(&frame),
        None => "no frame",
    }
}

/// Whether the bytes are a frame where those of version 2 are expected.
fn is_second(expect: &Expect<8>, bytes: &[u8]) -> bool {
    let mut second = *expect;
    second.version = 2;
    read(&second, bytes).is_some()
}

fn of_vector(rt: &HostRuntime, vector: &Vector) -> io::Result<()> {
    let (expect, bytes) = (&vector.expect, vector.bytes);
    row(rt, vector.kind, name_read(expect, bytes))?;
    rows(
        rt,
        &[
            ("  written again as it was", is_written_again(expect, bytes)),
            (
                "  a frame with a byte more",
                is_frame_with_one_more(expect, bytes),
            ),
        ],
    )?;
    let frames = frames_among_prefixes(expect, bytes);
    row(rt, "  frames among its proper prefixes", frames)?;
    row(rt, "  a frame of version 2", is_second(expect, bytes))
}

fn of_each(rt: &HostRuntime) -> io::Result<()> {
    for vector in &vectors() {
        of_vector(rt, vector)?;
    }
    Ok(())
}

/// The bytes with another one at this place, if there is such a place.
fn with<const L: usize>(bytes: &[u8; L], at: usize, byte: u8) -> [u8; L] {
    let mut changed = *bytes;
    if at < L {
        changed[at] = byte;
    }
    changed
}

fn of_claims(rt: &HostRuntime) -> io::Result<()> {
    let claims = expect(4, 0, 0, 1, 2);
    rows(
        rt,
        &[
            (
                "a claim of sender 3 for 2 is a frame",
                read(&claims, &with(&CLAIM, 8, 3)).is_some(),
            ),
            (
                "a claim of task 0 of no tasks",
                read(&claims, &with(&CLAIM, 14, 0)).is_some(),
            ),
            ("no bytes", read(&claims, &[]).is_some()),
        ],
    )
}

fn of_relays(rt: &HostRuntime) -> io::Result<()> {
    let relays = expect(4, 1, 0, 5, 1);
    let asked = "rows relayed in round 1 with an error that was wrapped twice";
    row(rt, asked, read(&relays, &with(&RELAY, 32, 2)).is_some())
}

pub fn print(rt: &HostRuntime) -> io::Result<()> {
    of_each(rt)?;
    of_claims(rt)?;
    of_relays(rt)
}
