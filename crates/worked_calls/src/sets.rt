//! Sets of nodes, rows and counts.

use crate::answers::Nodes;
use node_grid::{Matrix, NodeSet, Planes, Row};
use std::io;
use worked_rows::{Maybe, Several, row, rows};

fn of_sets(rt: &HostRuntime) -> io::Result<()> {
    let mut set: NodeSet<8> = NodeSet::full(3);
    set.put(7);
    set.cut(1);
    row(rt, "nodes 0, 1, 2 with 7, without 1", Nodes(set))?;
    rows(
        rt,
        &[
            ("it has 0", set.has(0)),
            ("it has 1", set.has(1)),
            ("it has 7", set.has(7)),
            ("it has 200", set.has(200)),
        ],
    )?;
    row(rt, "its size", set.len())?;
    row(rt, "its least", Maybe(set.least()))
}

fn of_nobody(rt: &HostRuntime) -> io::Result<()> {
    let none: NodeSet<16> = NodeSet::empty();
    row(rt, "the least of nobody", Maybe(none.least()))?;
    rows(
        rt,
        &[
            ("nobody is empty", none.is_empty()),
            ("nobody is the set of 0 nodes", none == NodeSet::full(0)),
        ],
    )?;
    row(rt, "all of sixteen", Nodes(NodeSet::<16>::full(16)))
}

/// Nodes 3 and 15, and the first two.
fn four_nodes() -> NodeSet<16> {
    let mut set: NodeSet<16> = NodeSet::empty();
    set.put(3);
    set.put(15);
    set.union(&NodeSet::full(2))
}

fn of_places(rt: &HostRuntime, set: &NodeSet<16>) -> io::Result<()> {
    rows(
        rt,
        &[
            ("the place of 15", set.place(15)),
            ("the place of 2", set.place(2)),
        ],
    )?;
    rows(
        rt,
        &[
            ("the member at place 2", Maybe(set.nth(2))),
            ("the member at place 4", Maybe(set.nth(4))),
        ],
    )
}

fn of_four(rt: &HostRuntime) -> io::Result<()> {
    let set = four_nodes();
    row(rt, "nodes 3 and 15, and the first 2", Nodes(set))?;
    of_places(rt, &set)?;
    rows(
        rt,
        &[
            ("all but the first 1", Nodes(set.minus(&NodeSet::full(1)))),
            ("all but the least", Nodes(set.rest())),
        ],
    )
}

fn of_matrices(rt: &HostRuntime) -> io::Result<()> {
    let mut accusing: Row<8> = Row::zero();
    accusing.masks[2] = 128;
    let mut matrix: Matrix<8> = Matrix::empty();
    row(
        rt,
        "an empty matrix has a row at 5",
        matrix.get(5).is_some(),
    )?;
    matrix.set(5, accusing);
    row(
        rt,
        "set at 5, there it is",
        matrix.get(5).copied() == Some(accusing),
    )?;
    row(rt, "and one at 4", matrix.get(4).is_some())
}

fn of_planes(rt: &HostRuntime) -> io::Result<()> {
    let mut accusing: Row<8> = Row::zero();
    accusing.masks[2] = 32769;
    let mut planes: Planes<8> = Planes::zero();
    planes.add(&accusing);
    accusing.masks[2] = 1;
    planes.add(&accusing);
    row(
        rt,
        "masks 32769 and 1 of node 2: kinds counted once",
        planes.planes()[0][2],
    )?;
    row(rt, "kinds counted twice", planes.planes()[1][2])?;
    row(
        rt,
        "kinds of more than one",
        Several(&planes.more_than(&[1; 8]).masks),
    )
}

pub fn print(rt: &HostRuntime) -> io::Result<()> {
    of_sets(rt)?;
    of_nobody(rt)?;
    of_four(rt)?;
    of_matrices(rt)?;
    of_planes(rt)
}
