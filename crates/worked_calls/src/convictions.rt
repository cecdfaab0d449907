//! Who is convicted of telling different things.

use equivocation::{convict, convict_beside};
use node_grid::Row;
use omh_paths::Wrapped;
use std::io;
use worked_rows::rows;

fn of_six(rt: &HostRuntime) -> io::Result<()> {
    let (low, high) = (Wrapped::Plain(0u8), Wrapped::Plain(2u8));
    rows(
        rt,
        &[
            (
                "told 2, relayed 2 2 0 0 0",
                convict(high, &[high, high, low, low, low], true, 1),
            ),
            (
                "told 0, relayed 2 2 2 0 0",
                convict(low, &[high, high, high, low, low], true, 1),
            ),
            (
                "told 2, relayed 0 0 0 0 0",
                convict(high, &[low, low, low, low, low], true, 1),
            ),
            (
                "told 0, relayed 2 0 0 0 0",
                convict(low, &[high, low, low, low, low], true, 1),
            ),
        ],
    )
}

fn of_what_is_missing(rt: &HostRuntime) -> io::Result<()> {
    let five = Wrapped::Plain(5u8);
    let (nothing, error) = (Wrapped::Fault(0), Wrapped::Fault(1));
    let none: [Wrapped<u8>; 0] = [];
    rows(
        rt,
        &[
            (
                "told 5, four relays missing",
                convict(five, &[nothing; 4], true, 1),
            ),
            (
                "told nothing, relayed so",
                convict(nothing, &[error, error, nothing], true, 1),
            ),
            (
                "told nothing, relayed 5 5",
                convict(nothing, &[five, five, error], true, 1),
            ),
            ("told 5, no relays", convict(five, &none, false, 3)),
        ],
    )
}

fn of_voices(rt: &HostRuntime) -> io::Result<()> {
    let five = Wrapped::Plain(5u8);
    let nine = Wrapped::Plain(9u8);
    rows(
        rt,
        &[
            (
                "told 5, relayed 9 5, joining",
                convict(five, &[nine, five], false, 1),
            ),
            (
                "told 5, relayed 9 5, full",
                convict(five, &[nine, five], true, 1),
            ),
            (
                "told 5, relayed 9 5, joining, m 0",
                convict(five, &[nine, five], false, 0),
            ),
            (
                "told 5, relayed 9 9, and 2 besides",
                convict_beside(five, &[nine, nine], 2, 1),
            ),
            (
                "told 5, relayed 9 9, and 3 besides",
                convict_beside(five, &[nine, nine], 3, 1),
            ),
        ],
    )
}

fn of_rows(rt: &HostRuntime) -> io::Result<()> {
    let zero: Row<16> = Row::zero();
    let mut other: Row<16> = Row::zero();
    other.masks[15] = 256;
    let relays = [
        Wrapped::Plain(other),
        Wrapped::Plain(other),
        Wrapped::Plain(zero),
    ];
    rows(
        rt,
        &[
            (
                "rows: one of three as told",
                convict(Wrapped::Plain(zero), &relays, true, 1),
            ),
            (
                "rows: two of three as told",
                convict(Wrapped::Plain(other), &relays, true, 1),
            ),
        ],
    )
}

pub fn print(rt: &HostRuntime) -> io::Result<()> {
    of_six(rt)?;
    of_what_is_missing(rt)?;
    of_voices(rt)?;
    of_rows(rt)
}
