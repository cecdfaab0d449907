//! Who is charged by settled rows, and rows as they are built.

use error_reports::{RowBuilder, charged, charged_all};
use node_grid::kind::{COLD, DEVIATE, EQUIVOCATE, MISSING, TIMING};
use node_grid::{Matrix, NodeSet, Row};
use std::io;
use worked_rows::{Several, row, rows};

/// Rows of the first nodes that accuse node 3 alone, of these kinds.
fn rows_on_three(masks: &[u16]) -> Matrix<8> {
    let mut settled = Matrix::empty();
    let mut row: Row<8> = Row::zero();
    for (id, mask) in masks.iter().enumerate().take(8) {
        row.masks[3] = *mask;
        settled.set(id as u8, row);
    }
    settled
}

fn by_more_than_half(rt: &HostRuntime) -> io::Result<()> {
    let members: NodeSet<8> = NodeSet::full(4);
    let settled = rows_on_three(&[5, 1, 0, 255]);
    rows(
        rt,
        &[
            (
                "rows 5 1 0 255 of node 3: it is charged with",
                charged(&settled, &members, 3),
            ),
            ("and node 0 with", charged(&settled, &members, 0)),
        ],
    )
}

fn all_at_once(rt: &HostRuntime) -> io::Result<()> {
    let members: NodeSet<8> = NodeSet::full(4);
    row(
        rt,
        "no rows charge",
        Several(&charged_all(&rows_on_three(&[]), &members, 4)),
    )?;
    let settled = rows_on_three(&[3, 1, 2, 255]);
    row(
        rt,
        "rows 3 1 2 255 of node 3 charge",
        Several(&charged_all(&settled, &members, 4)),
    )
}

fn by_half(rt: &HostRuntime) -> io::Result<()> {
    let members: NodeSet<16> = NodeSet::full(5);
    let mut settled: Matrix<16> = Matrix::empty();
    let mut accuser: Row<16> = Row::zero();
    accuser.masks[4] = 32769;
    settled.set(0, accuser);
    settled.set(1, accuser);
    settled.set(2, Row::zero());
    settled.set(3, Row::zero());
    row(
        rt,
        "two of four accuse node 4 of 32769",
        charged(&settled, &members, 4),
    )?;
    settled.set(2, accuser);
    row(rt, "three of four", charged(&settled, &members, 4))
}

fn over_two_periods(rt: &HostRuntime) -> io::Result<()> {
    let mut builder: RowBuilder<8> = RowBuilder::new(4, 0, 8);
    builder.note(2, MISSING);
    builder.note_each(|j| if j == 2 { Some(COLD) } else { None });
    builder.note_all(&NodeSet::full(2), EQUIVOCATE);
    builder.note_all(&NodeSet::full(2), TIMING);
    builder.carry(3, DEVIATE);
    builder.carry_each(|j| if j == 0 { Some(COLD) } else { None });
    builder.carry_all(&NodeSet::full(1), TIMING);
    row(
        rt,
        "the row of node 0 of four",
        Several(&builder.row().masks[..4]),
    )?;
    builder.next_period();
    row(
        rt,
        "that of the next period",
        Several(&builder.row().masks[..4]),
    )?;
    builder.next_period();
    row(
        rt,
        "and of the one after it",
        Several(&builder.row().masks[..4]),
    )
}

pub fn print(rt: &HostRuntime) -> io::Result<()> {
    by_more_than_half(rt)?;
    all_at_once(rt)?;
    by_half(rt)?;
    over_two_periods(rt)
}
