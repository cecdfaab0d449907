//! What a receiver has of one claim by each effect: a line for each, what befell the frame and what
//! the receiver has of it.
//!
//! The stored output was worked out from the rules by hand.
#![tactic(auto)]

ghost use Rattle.std.specs.Prelude.{◌≡◌};

use fault_classes::Effect;
use frames::{Body, Expect, Frame};
use node_grid::NodeSet;
use std::alloc::{AllocError, Global};
use std::fmt::{self, Display, Formatter, Write};
use std::io;
use touched_frames::{Arrived, arrives};
use worked_rows::row;

/// What is expected of node 2 in slot 1, of four nodes, all members, and three tasks.
fn expect() -> Expect<8>
    ensures nodes { result.nodes ≡ 4 }
    ensures rounds { result.m ≡ 1 }
{
    Expect {
        version: 1,
        nodes: 4,
        m: 1,
        period: 0,
        slot: 1,
        sender: 2,
        members: NodeSet::full(4),
        state_len: 18,
        tasks: 3,
        due: 1,
    }
}

/// What a receiver has.
#[derive(Clone, Copy)]
enum Has {
    Task(u8),
    Error(u8),
    Other,
}

impl Display for Has {
    fn fmt<W: Write>(&self, f: &mut Formatter<W>) -> fmt::Result {
        match self {
            Has::Task(task) => write!(f, "task {task}"),
            Has::Error(kind) => write!(f, "an error of kind {kind}"),
            Has::Other => f.write_str("something else"),
        }
    }
}

/// What a receiver has of a claim of task 1 with this effect.
fn received(effect: &Effect) -> Has {
    let expect = expect();
    let frame = Frame {
        head: expect.head(),
        body: Body::Done0(1),
    };
    let mut room = [0; 64];
    match &arrives(effect, &frame, &expect, &mut room) {
        Arrived::Bad(kind) => Has::Error(*kind),
        Arrived::Good(Body::Done0(task)) => Has::Task(*task),
        Arrived::Good(_) => Has::Other,
    }
}

/// Other bytes from an offset on.
fn set(alloc: Global, at: u16, bytes: &[u8]) -> Result<Effect, AllocError> {
    Ok(Effect::Set {
        at,
        bytes: Vec::from_slice(alloc, bytes)?,
    })
}

/// Other bytes in the frame's place.
fn raw(alloc: Global, bytes: &[u8]) -> Result<Effect, AllocError> {
    Ok(Effect::Raw(Vec::from_slice(alloc, bytes)?))
}

/// Effects of which no byte counts, and two of which all do.
fn print_unread(rt: &HostRuntime) -> io::Result<()> {
    row(rt, "dropped", received(&Effect::Drop))?;
    row(rt, "twice", received(&Effect::Twice))?;
    row(rt, "cut by one byte", received(&Effect::Cut(1)))?;
    row(rt, "cut by more than it has", received(&Effect::Cut(99)))?;
    row(rt, "cut by nothing", received(&Effect::Cut(0)))?;
    row(rt, "at tick 9", received(&Effect::Time(9)))?;
    row(rt, "at tick 10", received(&Effect::Time(10)))
}

/// Effects that set bytes of the frame.
fn print_set(rt: &HostRuntime) -> anyhow::Result<()> {
    let alloc = rt.alloc();
    row(rt, "with task 2 set", received(&set(alloc, 14, &[2])?))?;
    row(rt, "with task 3 set", received(&set(alloc, 14, &[3])?))?;
    row(rt, "with sender 3 set", received(&set(alloc, 8, &[3])?))?;
    row(
        rt,
        "with a byte set behind its end",
        received(&set(alloc, 15, &[2])?),
    )?;
    row(
        rt,
        "with its length, task 2 and a byte behind its end set",
        received(&set(alloc, 13, &[1, 2, 7])?),
    )?;
    Ok(())
}

/// Effects that send other bytes in its place.
fn print_raw(rt: &HostRuntime) -> anyhow::Result<()> {
    let alloc = rt.alloc();
    row(rt, "no bytes in its place", received(&raw(alloc, &[])?))?;
    row(
        rt,
        "in its place a claim of no task",
        received(&raw(alloc, b"MF\x01\x02\0\0\0\0\x02\x01\0\0\0\x01\xff")?),
    )?;
    row(
        rt,
        "in its place a cold node's frame",
        received(&raw(alloc, b"MF\x01\x07\0\0\0\0\x02\x01\0\0\0\0")?),
    )?;
    row(
        rt,
        "in its place a row",
        received(&raw(
            alloc,
            b"MF\x01\x05\0\0\0\0\x02\x01\0\0\0\x08\0\0\0\0\0\0\0\0",
        )?),
    )?;
    Ok(())
}

fn main(rt: HostRuntime) -> anyhow::Result<()> {
    print_unread(&rt)?;
    print_set(&rt)?;
    print_raw(&rt)
}
