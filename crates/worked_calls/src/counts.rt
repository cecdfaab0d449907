//! Counts and streaks over three periods.

use penalty::{Counts, Policy};
use std::io;
use worked_rows::{Several, row};

fn show(rt: &HostRuntime, asked: &str, counts: &Counts<8>) -> io::Result<()> {
    row(rt, asked, Several(&counts.counts[..4]))?;
    row(rt, "  streaks", Several(&counts.streaks[..4]))
}

pub fn print(rt: &HostRuntime) -> io::Result<()> {
    let mut weights = [0; 16];
    weights[0] = 5;
    weights[7] = 9;
    let policy = Policy {
        weights,
        exclude: 10,
        readmit: 8,
        credit: 3,
        streak: 2,
        cap: 20,
        retire: 0,
    };
    let mut counts: Counts<8> = Counts::zero();
    let mut charged = [0; 8];
    charged[1] = 129;
    charged[2] = 1;
    counts.step(&policy, 3, &charged);
    show(
        rt,
        "of three nodes 1 is charged with 129 and 2 with 1: counts",
        &counts,
    )?;
    charged[2] = 0;
    counts.step(&policy, 3, &charged);
    show(rt, "node 1 alone with 129", &counts)?;
    counts.step(&policy, 3, &charged);
    show(rt, "and once more", &counts)
}
