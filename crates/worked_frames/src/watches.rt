//! What a node finds of a slot.

ghost use Rattle.std.specs.Prelude.{◌≡◌, true, IfOk, IsSome};
ghost use Rattle.frames.specs.Bound.{HasSizes};
ghost use Rattle.frames.specs.Seen.{expected};

use error_detect::{Finding, Rooms, SlotWatch};
use frames::{Body, Expect, frame_bound};
use node_grid::{NoMemory, NodeSet};
use std::alloc::{AllocError, Global};
use std::io;
use worked_rows::row;

/// Node 2 claims nothing in slot 1 of period 0.
const CLAIM: [u8; 15] = *b"MF\x01\x02\0\0\0\0\x02\x01\0\0\0\x01\xff";

/// Claims in period 0 among four nodes.
fn claims() -> Expect<8>
    ensures { HasSizes 4 0 18 0 (expected result) }
{
    Expect {
        version: 1,
        nodes: 4,
        m: 0,
        period: 0,
        slot: 1,
        sender: 0,
        members: NodeSet::full(4),
        state_len: 18,
        tasks: 0,
        due: 0,
    }
}

fn name_of(finding: Finding) -> &'static str {
    match finding {
        Finding::Good => "good",
        Finding::Missing => "missing",
        Finding::Malformed => "malformed",
        Finding::Timing => "timing",
        Finding::Cold => "cold",
    }
}

/// A watch of node 0 over four nodes, with the slot of claims open.
fn opened(alloc: Global) -> Result<SlotWatch<8>, NoMemory>
    ensures open { IfOk result (λ watch. watch.is_open ≡ true) }
    ensures some_slot { IfOk result (λ watch. IsSome watch.expect) }
    ensures nodes { IfOk result (λ watch. watch.nodes ≡ 4) }
    ensures me { IfOk result (λ watch. watch.me ≡ 0) }
{
    let longest = frame_bound(4, 0, 18, 0);
    let mut rooms = Rooms::open(alloc, 4, longest)?;
    let mut watch = SlotWatch::open(alloc, 4, 0, longest)?;
    watch.swap_rooms(&mut rooms);
    watch.open_slot(&claims());
    Ok(watch)
}

/// What is found of a node in a slot, and whether it claims nothing, where a frame of it is kept.
#[derive(Clone, Copy)]
struct Found {
    finding: Finding,
    claims_nothing: Option<bool>,
}

/// What node 0 finds of node 2, of which these frames arrive, two at most.
fn find(alloc: Global, arriving: &[(u8, &[u8])]) -> Result<Found, NoMemory> {
    let mut watch = opened(alloc)?;
    if let Some((tick, bytes)) = arriving.first() {
        watch.deliver(2, *tick, bytes);
    }
    if let Some((tick, bytes)) = arriving.get(1) {
        watch.deliver(2, *tick, bytes);
    }
    let found = watch.close();
    let claims_nothing = match watch.frame(2) {
        Some(frame) => Some(matches!(frame.body, Body::Done0(255))),
        None => None,
    };
    Ok(Found {
        finding: found[2],
        claims_nothing,
    })
}

/// Prints what was found.
fn tell(rt: &HostRuntime, asked: &str, found: Found) -> io::Result<()> {
    row(rt, asked, name_of(found.finding))?;
    match found.claims_nothing {
        Some(claims_nothing) => row(rt, "  it claims nothing", claims_nothing),
        None => Ok(()),
    }
}

/// Prints what node 0 finds of node 2, of which these frames arrive, two at most.
fn show(rt: &HostRuntime, asked: &str, arriving: &[(u8, &[u8])]) -> anyhow::Result<()> {
    let Ok(found) = find(rt.alloc(), arriving) else {
        return Err(AllocError.into());
    };
    Ok(tell(rt, asked, found)?)
}

fn of_repeats(rt: &HostRuntime) -> anyhow::Result<()> {
    show(rt, "nothing", &[])?;
    show(rt, "the right frame", &[(15, &CLAIM)])?;
    show(
        rt,
        "the right frame, and then the byte 00",
        &[(15, &CLAIM), (15, &[0])],
    )?;
    show(
        rt,
        "the byte 00, and then the right frame",
        &[(15, &[0]), (15, &CLAIM)],
    )?;
    show(rt, "the right frame twice", &[(15, &CLAIM), (15, &CLAIM)])?;
    show(
        rt,
        "the right frame but for its last byte",
        &[(15, &CLAIM[..14])],
    )
}

fn of_ticks(rt: &HostRuntime) -> anyhow::Result<()> {
    show(rt, "the right frame at tick 9", &[(9, &CLAIM)])?;
    show(rt, "at tick 10", &[(10, &CLAIM)])?;
    show(rt, "at tick 20", &[(20, &CLAIM)])?;
    show(rt, "at tick 21", &[(21, &CLAIM)])?;
    show(rt, "at ticks 15 and 21", &[(15, &CLAIM), (21, &CLAIM)])
}

pub fn print(rt: &HostRuntime) -> anyhow::Result<()> {
    of_repeats(rt)?;
    of_ticks(rt)
}
