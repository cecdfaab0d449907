//! Sources and sinks that fail, that give and take little at a time, or that have little room.

use crate::asking::{Answer, Devices, Piece, ask};
use std::alloc::{AllocError, Global};
use std::io;
use worked_rows::row;

/// A scenario without faults: three nodes, one period. It has 125 bytes, and the text of its replay
/// has 441.
const SMALLEST: &str =
    r#"{"nodes":3,"m":0,"periods":1,"policy":{"weights":[5,5,5,5,5,5,5,5],"exclude":20,"readmit":4,"credit":1,"streak":2,"cap":100}}"#;

/// A scenario of which each task comes after another one. What refuses it has 12 bytes.
const CYCLE: &str = r#"{"nodes":3,"m":0,"periods":1,
"policy":{"weights":[5,5,5,5,5,5,5,5],"exclude":20,"readmit":4,"credit":1,"streak":2,"cap":100},
"tasks":[{"after":[],"nodes":[0],"need":1,"min":1,"max":1,"run":[1]},
{"after":[3],"nodes":[0],"need":1,"min":1,"max":1,"run":[1]},
{"after":[1],"nodes":[0],"need":1,"min":1,"max":1,"run":[1]},
{"after":[2],"nodes":[0],"need":1,"min":1,"max":1,"run":[1]}]}"#;

/// Pieces of seven bytes in, of ten out, and room for all.
const PIECES: Devices<'static> = Devices {
    source_piece: Piece { bytes: 7 },
    source_fails: &[],
    room: 1000,
    sink_piece: Piece { bytes: 10 },
    sink_fails: &[],
};

/// Prints the status and how many bytes were written.
fn tell(rt: &HostRuntime, asked: &str, answer: &Answer) -> io::Result<()> {
    let count = answer.written.len();
    println!(rt; "{asked}: status {}, {count} bytes", answer.status)
}

/// Prints what a replay of this input ends with over these devices.
fn tell_replay(
    rt: &HostRuntime,
    asked: &str,
    input: &str,
    devices: Devices<'_>,
) -> anyhow::Result<()> {
    let answer = ask(rt.alloc(), &["replay"], input, devices)?;
    Ok(tell(rt, asked, &answer)?)
}

fn of_no_words(rt: &HostRuntime) -> anyhow::Result<()> {
    let failing = Devices {
        source_fails: &[0],
        sink_fails: &[0],
        ..PIECES
    };
    let answer = ask(rt.alloc(), &[], SMALLEST, failing)?;
    let asked = "no words, where source and sink fail at once";
    Ok(tell(rt, asked, &answer)?)
}

fn of_storm(rt: &HostRuntime, silent: Devices<'_>) -> anyhow::Result<()> {
    let answer = ask(rt.alloc(), &["storm", "7"], SMALLEST, silent)?;
    let asked = "a storm, where the source fails at once: status";
    Ok(row(rt, asked, answer.status)?)
}

fn of_words(rt: &HostRuntime) -> anyhow::Result<()> {
    let silent = Devices {
        source_fails: &[0],
        ..PIECES
    };
    of_no_words(rt)?;
    of_storm(rt, silent)?;
    let asked = "a replay, where the source fails at once";
    tell_replay(rt, asked, SMALLEST, silent)
}

/// How many of the calls of the source end the program with this status and nothing written, if
/// each fails in turn.
fn failing_reads(alloc: Global, calls: u64, status: u8) -> Result<u64, AllocError> {
    let mut alike = 0;
    for call in 0..calls {
        let fails = [call];
        let failing = Devices {
            source_fails: &fails,
            ..PIECES
        };
        let answer = ask(alloc, &["replay"], SMALLEST, failing)?;
        if answer.status == status && answer.written.is_empty() && alike < calls {
            alike += 1;
        }
    }
    Ok(alike)
}

/// In how many rooms below the text's length the program ends with this status, and as much of the
/// text written as there is room for.
fn small_rooms(alloc: Global, input: &str, text: &[u8], status: u8) -> Result<usize, AllocError> {
    let mut alike = 0;
    for room in 0..text.len() {
        let small = Devices { room, ..PIECES };
        let answer = ask(alloc, &["replay"], input, small)?;
        let part = answer.written.as_slice();
        let is_whole = part.len() == room && text.starts_with(part);
        if answer.status == status && is_whole && alike < text.len() {
            alike += 1;
        }
    }
    Ok(alike)
}

/// Prints in how many rooms that are too small the program ends so.
fn tell_small(
    rt: &HostRuntime,
    asked: &str,
    input: &str,
    text: &[u8],
    status: u8,
) -> anyhow::Result<()> {
    let alike = small_rooms(rt.alloc(), input, text, status)?;
    Ok(row(rt, asked, alike)?)
}

fn of_failing_reads(rt: &HostRuntime) -> anyhow::Result<()> {
    let alike = failing_reads(rt.alloc(), 19, 5)?;
    Ok(row(
        rt,
        "of 19 calls of the source, each failing in turn, end with status 5 and nothing written",
        alike,
    )?)
}

fn of_reads(rt: &HostRuntime) -> anyhow::Result<()> {
    tell_replay(rt, "a replay in pieces of 7 bytes", SMALLEST, PIECES)?;
    of_failing_reads(rt)?;
    let behind = Devices {
        source_fails: &[19],
        ..PIECES
    };
    let asked = "where the call behind the last one would fail";
    tell_replay(rt, asked, SMALLEST, behind)
}

/// What becomes of this text of a replay over little and much room.
fn of_text(rt: &HostRuntime, text: &[u8]) -> anyhow::Result<()> {
    let just = Devices {
        room: text.len(),
        ..PIECES
    };
    tell_replay(rt, "just room for the text", SMALLEST, just)?;
    tell_small(
        rt,
        "of 441 smaller rooms, end with status 6 and are full of the text",
        SMALLEST,
        text,
        6,
    )?;
    let failing = Devices {
        sink_piece: Piece { bytes: 100 },
        sink_fails: &[2],
        ..PIECES
    };
    tell_replay(
        rt,
        "where call 2 of a sink that takes 100 bytes at a time fails",
        SMALLEST,
        failing,
    )
}

fn of_rooms(rt: &HostRuntime) -> anyhow::Result<()> {
    let text = ask(rt.alloc(), &["replay"], SMALLEST, PIECES)?;
    of_text(rt, text.written.as_slice())
}

/// Prints what is written of a refusal into room for three bytes.
fn show_three(rt: &HostRuntime, answer: &Answer) -> io::Result<()> {
    tell(rt, "with room for 3 bytes", answer)?;
    row(
        rt,
        "they are `ref`",
        answer.written.as_slice() == b"ref".as_slice(),
    )
}

fn of_three_bytes(rt: &HostRuntime) -> anyhow::Result<()> {
    let small = Devices { room: 3, ..PIECES };
    let answer = ask(rt.alloc(), &["replay"], CYCLE, small)?;
    Ok(show_three(rt, &answer)?)
}

/// What becomes of the line of this refusal over little and much room.
fn of_line(rt: &HostRuntime, refused: &Answer) -> anyhow::Result<()> {
    tell(rt, "tasks in a circle", refused)?;
    of_three_bytes(rt)?;
    tell_small(
        rt,
        "of 12 smaller rooms, end with status 4 and are full of the line",
        CYCLE,
        refused.written.as_slice(),
        4,
    )
}

fn of_refusals(rt: &HostRuntime) -> anyhow::Result<()> {
    let refused = ask(rt.alloc(), &["replay"], CYCLE, PIECES)?;
    of_line(rt, &refused)
}

pub fn print(rt: &HostRuntime) -> anyhow::Result<()> {
    of_words(rt)?;
    of_reads(rt)?;
    of_rooms(rt)?;
    of_refusals(rt)
}
