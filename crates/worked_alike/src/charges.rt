//! Who is charged and what is noted: a node by itself, and all at once.

use crate::draws::Draws;
use error_reports::{RowBuilder, charged, charged_all};
use node_grid::{Matrix, NodeSet, Row};
use std::io;
use worked_rows::rows;

/// How many inputs are drawn of each kind.
const DRAWN: u32 = 400;

/// A row in which each kind of each node is drawn with one half.
fn row_of(draws: &mut Draws) -> Row<16> {
    let mut row = Row::zero();
    for id in 0..16usize {
        row.masks[id] = draws.next();
    }
    row
}

/// Rows of some nodes.
fn rows_of(draws: &mut Draws) -> Matrix<16> {
    let there = draws.nodes();
    let mut rows = Matrix::empty();
    for id in 0..16u8 {
        if there.has(id) {
            rows.set(id, row_of(draws));
        }
    }
    rows
}

/// Whether each node of sixteen is charged alike by itself and with all others at once.
fn are_charged_alike(rows: &Matrix<16>, members: &NodeSet<16>) -> bool {
    let all = charged_all(rows, members, 16);
    for id in 0..16u8 {
        if charged(rows, members, id) != all[id as usize] {
            return false;
        }
    }
    true
}

/// Whether a row with one kind noted of each of these nodes is the same where they are noted one by
/// one.
fn are_noted_alike(accused: &NodeSet<16>, kind: u8) -> bool {
    let mut each: RowBuilder<16> = RowBuilder::new(16, 0, 16);
    let mut all: RowBuilder<16> = RowBuilder::new(16, 0, 16);
    let kind = kind % 16;
    for id in 1..16u8 {
        if accused.has(id) {
            each.note(id, kind);
            each.carry(id, kind);
        }
    }
    all.note_all(accused, kind);
    all.carry_all(accused, kind);
    let are_alike = each.row() == all.row();
    each.next_period();
    all.next_period();
    are_alike && each.row() == all.row()
}

/// Of how many drawn inputs both answer alike: where nodes are charged, and where kinds are noted.
fn count_alike() -> (u32, u32) {
    let mut draws = Draws::new(7);
    let (mut charges, mut notes) = (0u32, 0u32);
    for _ in 0..DRAWN {
        let rows = rows_of(&mut draws);
        let members = draws.nodes();
        let are_charged_alike = are_charged_alike(&rows, &members);
        charges = charges.saturating_add(are_charged_alike as u32);
        let are_noted_alike = are_noted_alike(&members, (draws.next() % 16) as u8);
        notes = notes.saturating_add(are_noted_alike as u32);
    }
    (charges, notes)
}

pub fn print(rt: &HostRuntime) -> io::Result<()> {
    let (charges, notes) = count_alike();
    rows(
        rt,
        &[
            ("rows drawn", DRAWN),
            (
                "  of which charge each node alike by itself and all at once",
                charges,
            ),
            (
                "  as many sets of nodes, noted alike one by one and at once",
                notes,
            ),
        ],
    )
}
