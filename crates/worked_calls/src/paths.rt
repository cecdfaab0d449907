//! Paths, their ranks, and majorities.

ghost use Rattle.std.specs.Prelude.{◌≡◌, ◌∷◌, []};

use crate::answers::Said;
use node_grid::NodeSet;
use omh_paths::{Path, Wrapped, count_paths, majority, rank, unrank};
use std::io;
use worked_rows::{row, rows};

/// Nodes 0, 1, 2 and 4.
fn members() -> NodeSet<8>
    ensures { result ≡ 0 ∷ 1 ∷ 2 ∷ 4 ∷ [] }
{
    let mut set = NodeSet::full(3);
    set.put(4);
    set
}

/// Path 1 4.
fn path() -> Path
    ensures { result ≡ 1 ∷ 4 ∷ [] }
{
    Path::root(1).then(4)
}

/// The nodes of path 1 4.
fn of_nodes(rt: &HostRuntime) -> io::Result<()> {
    let path = path();
    rows(
        rt,
        &[
            ("the length of path 1 4", path.len()),
            ("its node 0", path.at(0)),
            ("its node 1", path.at(1)),
        ],
    )?;
    rows(rt, &[("it has 4", path.has(4)), ("it has 0", path.has(0))])
}

fn of_paths(rt: &HostRuntime) -> io::Result<()> {
    let set = members();
    row(
        rt,
        "over nodes 0, 1, 2, 4 the rank of path 1 4",
        rank(&set, &path()),
    )?;
    let other = unrank(&set, 2, 11);
    row(
        rt,
        "path 11 of two nodes is 4 2",
        other == Path::root(4).then(2),
    )?;
    rows(
        rt,
        &[
            ("paths of 2 of 7", count_paths(7, 2)),
            ("paths of 3 of 14", count_paths(14, 3)),
        ],
    )?;
    of_nodes(rt)
}

fn of_wrapping(rt: &HostRuntime) -> io::Result<()> {
    rows(
        rt,
        &[
            ("plain 5 wrapped", Said(Wrapped::Plain(5).wrap())),
            ("fault 0 wrapped", Said(Wrapped::Fault(0).wrap())),
            ("fault 1 unwrapped", Said(Wrapped::Fault(1).unwrap())),
        ],
    )
}

fn of_majorities(rt: &HostRuntime) -> io::Result<()> {
    let five = Wrapped::Plain(5u8);
    let (nothing, error) = (Wrapped::Fault(0), Wrapped::Fault(1));
    let none: [Wrapped<u8>; 0] = [];
    rows(
        rt,
        &[
            (
                "majority of 5, nothing, 5, fault 1",
                Said(majority(&[five, nothing, five, error])),
            ),
            ("majority of 5 and fault 1", Said(majority(&[five, error]))),
            ("majority of no values", Said(majority(&none))),
        ],
    )
}

pub fn print(rt: &HostRuntime) -> io::Result<()> {
    of_paths(rt)?;
    of_wrapping(rt)?;
    of_majorities(rt)
}
