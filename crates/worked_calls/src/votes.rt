//! Votes, trims, and channels.

use mme_vote::{Channel, deviates, trim, vote};
use std::io;
use worked_rows::{Maybe, Several, row, rows};

fn of_trims(rt: &HostRuntime) -> io::Result<()> {
    rows(
        rt,
        &[
            ("the trim of 4, m 1", trim(4, 1)),
            ("the trim of 3, m 1", trim(3, 1)),
            ("the trim of 1, m 2", trim(1, 2)),
            ("the trim of 16, m 3", trim(16, 3)),
        ],
    )
}

fn of_votes(rt: &HostRuntime) -> io::Result<()> {
    let mut none: [i64; 0] = [];
    rows(
        rt,
        &[
            ("the vote of -2 -3, m 0", Maybe(vote(&mut [-2, -3], 0))),
            ("the vote of nothing", Maybe(vote(&mut none, 1))),
            (
                "the vote of 0 0 0 9 9, m 0",
                Maybe(vote(&mut [0, 0, 0, 9, 9], 0)),
            ),
            (
                "the vote of the least, twice",
                Maybe(vote(&mut [i64::MIN, i64::MIN], 3)),
            ),
            ("the vote of the greatest", Maybe(vote(&mut [i64::MAX], 3))),
            (
                "the vote of 10 12 14 1000, m 1",
                Maybe(vote(&mut [10, 12, 14, 1000], 1)),
            ),
            (
                "the vote of 10 12 14, m 1",
                Maybe(vote(&mut [10, 12, 14], 1)),
            ),
            (
                "the vote of -1000 10 12 14, m 1",
                Maybe(vote(&mut [-1000, 10, 12, 14], 1)),
            ),
        ],
    )?;
    let mut values = [14, 1000, 10, 12];
    let _ = vote(&mut values, 1);
    row(rt, "14 1000 10 12 after a vote", Several(&values))
}

fn of_deltas(rt: &HostRuntime) -> io::Result<()> {
    rows(
        rt,
        &[
            ("-5 deviates from 5 at 9", deviates(-5, 5, 9)),
            ("-5 deviates from 5 at 10", deviates(-5, 5, 10)),
            ("5 deviates from 5 at -1", deviates(5, 5, -1)),
            (
                "the least from the greatest",
                deviates(i64::MIN, i64::MAX, i64::MAX),
            ),
        ],
    )
}

fn of_channels(rt: &HostRuntime) -> io::Result<()> {
    let state: Channel<8> = Channel::State {
        delta: 10,
        start: [1000; 8],
        step: 5,
    };
    let sensor: Channel<8> = Channel::Sensor {
        delta: 6,
        task: Some(5),
    };
    let copy: Channel<8> = Channel::Copy {
        delta: 4,
        task: 0,
        lies: 1,
    };
    for (name, channel) in [
        ("a state channel", state),
        ("a sensor", sensor),
        ("copies", copy),
    ] {
        row(rt, name, channel.delta())?;
        row(rt, "  its task", Maybe(channel.task()))?;
        row(rt, "  judged", channel.is_judged())?;
    }
    Ok(())
}

pub fn print(rt: &HostRuntime) -> io::Result<()> {
    of_trims(rt)?;
    of_votes(rt)?;
    of_deltas(rt)?;
    of_channels(rt)
}
