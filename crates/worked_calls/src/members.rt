//! Who is a member after a step.

use crate::answers::Nodes;
use membership::{Left, next};
use node_grid::NodeSet;
use penalty::{Counts, Policy};
use std::io;
use worked_rows::{Several, row};

fn policy(retire: u16) -> Policy {
    Policy {
        weights: [0; 16],
        exclude: 10,
        readmit: 8,
        credit: 1,
        streak: 1,
        cap: 12,
        retire,
    }
}

fn one_leaves_and_joins(rt: &HostRuntime) -> io::Result<()> {
    let policy = policy(0);
    let mut members: NodeSet<8> = NodeSet::full(4);
    let mut left = Left::zero();
    let mut counts: Counts<8> = Counts::zero();
    counts.counts[3] = 10;
    members = next(&members, 4, &counts, &mut left, &policy);
    row(rt, "node 3 counts 10, exclude 10: members", Nodes(members))?;
    counts.counts[3] = 9;
    members = next(&members, 4, &counts, &mut left, &policy);
    row(rt, "it counts 9, readmit 8", Nodes(members))?;
    counts.counts[3] = 8;
    members = next(&members, 4, &counts, &mut left, &policy);
    row(rt, "it counts 8", Nodes(members))?;
    row(rt, "left, without retirement", Several(&left.times))
}

fn not_all_leave(rt: &HostRuntime) -> io::Result<()> {
    let policy = policy(2);
    let members: NodeSet<16> = NodeSet::full(3);
    let mut left = Left::zero();
    let mut counts: Counts<16> = Counts {
        counts: [11; 16],
        streaks: [0; 16],
    };
    row(
        rt,
        "all count 11",
        Nodes(next(&members, 16, &counts, &mut left, &policy)),
    )?;
    row(rt, "left", Several(&left.times[..3]))?;
    counts.counts[1] = 9;
    counts.counts[5] = 0;
    let after = next(&members, 16, &counts, &mut left, &policy);
    row(rt, "node 1 counts 9, and node 5 nothing", Nodes(after))?;
    row(rt, "left", Several(&left.times[..3]))
}

fn retired(rt: &HostRuntime) -> io::Result<()> {
    let policy = policy(2);
    let members: NodeSet<8> = NodeSet::full(3);
    let mut left = Left::zero();
    left.times[3] = 1;
    left.times[4] = 2;
    left.times[0] = 65535;
    let mut counts: Counts<8> = Counts::zero();
    counts.counts[0] = 12;
    let after = next(&members, 5, &counts, &mut left, &policy);
    row(rt, "node 3 left once, node 4 twice, retire 2", Nodes(after))?;
    row(rt, "left", Several(&left.times[..5]))
}

pub fn print(rt: &HostRuntime) -> io::Result<()> {
    one_leaves_and_joins(rt)?;
    not_all_leave(rt)?;
    retired(rt)
}
