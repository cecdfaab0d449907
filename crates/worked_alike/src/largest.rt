//! That what is heard can be kept at the largest size, sixteen nodes and three relay rounds, and
//! how much of it is.

ghost use Rattle.std.specs.Prelude.{◌≡◌};

use node_grid::{NoMemory, NodeSet, Row};
use omh::Table as PlainTable;
use omh_paths::count_paths;
use relay_table::Table;
use std::alloc::Global;
use std::io;
use worked_rows::rows;

/// How many terms a table keeps where all of sixteen nodes are members.
fn terms_kept(table: &mut Table<u8, 16>) -> usize
    requires nodes { table.old.nodes ≡ 16 }
    requires rounds { table.old.rounds ≡ 3 }
{
    table.start(&NodeSet::full(16), 0, true, 0);
    let mut kept = 0usize;
    for len in 1..4 {
        kept = kept.saturating_add(table.heard(len).len());
    }
    kept
}

/// How many paths of one to four nodes there are out of fifteen.
fn paths_of_fifteen() -> usize {
    let mut paths = 0usize;
    for len in 1..5 {
        paths = paths.saturating_add(count_paths(15, len));
    }
    paths
}

/// Whether a table of what sixteen nodes claim can be had.
fn can_have_claims(alloc: Global) -> bool {
    let table: Result<Table<u8, 16>, NoMemory> = Table::open(alloc, 16, 3);
    table.is_ok()
}

/// Whether one of their rows can be had.
fn can_have_rows(alloc: Global) -> bool {
    let table: Result<Table<Row<16>, 16>, NoMemory> = Table::open(alloc, 16, 3);
    table.is_ok()
}

/// Whether a plain table of claims can be had.
fn can_have_plain_claims(alloc: Global) -> bool {
    let table: Result<PlainTable<u8, 16>, NoMemory> = PlainTable::open(alloc, 16, 3);
    table.is_ok()
}

/// Whether a plain table of rows can be had.
fn can_have_plain_rows(alloc: Global) -> bool {
    let table: Result<PlainTable<Row<16>, 16>, NoMemory> = PlainTable::open(alloc, 16, 3);
    table.is_ok()
}

/// How many terms a table of claims keeps where all of sixteen nodes are members; 0 where none can
/// be had.
fn claims_kept(alloc: Global) -> usize {
    let table: Result<Table<u8, 16>, NoMemory> = Table::open(alloc, 16, 3);
    match table {
        Ok(mut table) => terms_kept(&mut table),
        Err(_) => 0,
    }
}

fn of_tables(rt: &HostRuntime) -> io::Result<()> {
    let alloc = rt.alloc();
    rows(
        rt,
        &[
            (
                "a table of what sixteen nodes claim can be had",
                can_have_claims(alloc),
            ),
            ("one of their rows", can_have_rows(alloc)),
            ("a plain table of claims", can_have_plain_claims(alloc)),
            ("one of rows", can_have_plain_rows(alloc)),
        ],
    )
}

pub fn print(rt: &HostRuntime) -> io::Result<()> {
    of_tables(rt)?;
    rows(
        rt,
        &[
            (
                "terms of claims that the first of them keeps",
                claims_kept(rt.alloc()),
            ),
            ("paths of the fifteen other nodes", paths_of_fifteen()),
        ],
    )
}
