//! The writing and the reading of the longest relay frame of eight nodes, beside a copy of its
//! bytes.

ghost use Rattle.std.specs.Prelude.{◌≡◌};

use frames::{Expect, decode, encode};
use node_grid::NodeSet;
use std::io;
use std::time::Instant;

/// The number of bytes of the frame: a header of 14, and 42 entries of 17 bytes.
const LENGTH: usize = 728;

/// How often each is done.
const TURNS: u32 = 200_000;

/// What is expected in the last slot of a period of eight nodes with two relay rounds.
fn expect() -> Expect<8>
    ensures nodes { result.nodes ≡ 8 }
    ensures rounds { result.m ≡ 2 }
{
    Expect {
        version: 1,
        nodes: 8,
        m: 2,
        period: 0,
        slot: 7,
        sender: 0,
        members: NodeSet::full(8),
        state_len: 34,
        tasks: 0,
        due: 0,
    }
}

/// A frame whose rows accuse nobody.
fn frame() -> [u8; LENGTH] {
    let mut bytes = [0; LENGTH];
    bytes[..14].copy_from_slice(&[0x4d, 0x46, 1, 6, 0, 0, 0, 0, 0, 7, 0, 0, 2, 0xca]);
    bytes
}

/// Changes a mask of the frame in each turn, so that no turn can be left out.
fn touch(bytes: &mut [u8; LENGTH], turn: u32) {
    bytes[16] = (turn % 256) as u8;
}

/// The nanoseconds of a turn.
fn per_turn(start: &Instant, rt: &HostRuntime) -> io::Result<u128> {
    Ok(start.elapsed(rt)?.as_nanos() / TURNS as u128)
}

/// Copies the frame in each turn, and sums bytes of the copies.
fn copy_turns() -> u64 {
    let mut bytes = frame();
    let mut copy = [0; LENGTH];
    let mut seen = 0u64;
    for turn in 0..TURNS {
        touch(&mut bytes, turn);
        copy.copy_from_slice(&bytes);
        seen = seen.wrapping_add(copy[(turn % 728) as usize] as u64);
    }
    seen
}

/// Reads the frame in each turn, and counts the frames.
fn read_turns() -> u64 {
    let mut bytes = frame();
    let expect = expect();
    let mut seen = 0u64;
    for turn in 0..TURNS {
        touch(&mut bytes, turn);
        if decode(&expect, &bytes).is_some() {
            seen = seen.wrapping_add(1);
        }
    }
    seen
}

/// Writes the frame in each turn, and sums what is written. It is read once before.
fn write_turns() -> u64 {
    let bytes = frame();
    let Some(shown) = decode(&expect(), &bytes) else {
        return 0;
    };
    let mut out = [0; LENGTH];
    let mut seen = 0u64;
    for turn in 0..TURNS {
        touch(&mut out, turn);
        let size = encode(&shown, 8, &mut out);
        seen = seen.wrapping_add(size as u64 + out[16] as u64);
    }
    seen
}

fn measure_copying(rt: &HostRuntime) -> io::Result<()> {
    let start = Instant::now(rt)?;
    let copied = copy_turns();
    let copy = per_turn(&start, rt)?;
    println!(rt; "copy {copy} ns ({copied})")
}

fn measure_reading(rt: &HostRuntime) -> io::Result<()> {
    let start = Instant::now(rt)?;
    let frames = read_turns();
    let read = per_turn(&start, rt)?;
    println!(rt; "decode {read} ns ({frames} frames)")
}

fn measure_writing(rt: &HostRuntime) -> io::Result<()> {
    let start = Instant::now(rt)?;
    let bytes = write_turns();
    let written = per_turn(&start, rt)?;
    println!(rt; "encode {written} ns ({bytes} bytes)")
}

/// Prints what a copy, a reading and a writing of the frame take.
pub fn measure(rt: &HostRuntime) -> io::Result<()> {
    measure_copying(rt)?;
    measure_reading(rt)?;
    measure_writing(rt)
}
