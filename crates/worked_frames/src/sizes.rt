//! The longest frames.

use error_detect::SlotWatch;
use frames::frame_bound;
use node_grid::NoMemory;
use std::io;
use worked_rows::{row, rows};

pub fn print(rt: &HostRuntime) -> io::Result<()> {
    let longest = frame_bound(16, 3, 1090, 8);
    let watch: Result<SlotWatch<16>, NoMemory> = SlotWatch::open(rt.alloc(), 16, 15, longest);
    rows(
        rt,
        &[
            (
                "the longest frame of 8 nodes, two rounds, a state of 546 bytes",
                frame_bound(8, 2, 546, 8),
            ),
            (
                "that of 16 nodes, three rounds, a state of 1090 bytes",
                longest,
            ),
            (
                "that of 3 nodes, no rounds, a state of 14 bytes",
                frame_bound(3, 0, 14, 0),
            ),
        ],
    )?;
    row(
        rt,
        "a watch of frames of the longest size can be had",
        watch.is_ok(),
    )
}
