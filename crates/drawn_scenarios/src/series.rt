//! Rows of numbers, one for each node.
ghost use Rattle.std.specs.Prelude.{◌≡◌, ◌≤◌, ◌<◌, map, IfOk};
ghost use Rattle.node_grid.specs.NodeSet.{ids_below};
ghost use Rattle.drawn_scenarios.specs.Series.{InRange, number_at, three_rows};

use std::alloc::{AllocError, Global};

/// What the numbers of the rows are.
#[derive(Clone, Copy)]
pub enum Series {
    /// What nodes read of the sensor.
    Readings,
    /// What copies of the task come to.
    Results,
    /// The starts of clocks that are so far apart.
    Starts(u64),
    /// The drifts of clocks that drift so far apart.
    Drifts(u32),
    /// The errors of readings that are so wrong at most.
    Errors(u32),
}

impl Series {
    /// The number of a node in a row.
    fn at(self, row: u8, node: u8) -> i64
        requires { InRange self row node }
        ensures { result ≡ number_at self row node }
    {
        let turn = (u64::from(node) + u64::from(row)) % 3;
        match self {
            Series::Readings => 100 + i64::from((3 * u32::from(node) + u32::from(row)) % 5),
            Series::Results => 40 + i64::from(node % 4),
            Series::Starts(start) => (u64::from(5 * u32::from(node) % 13) * start / 12) as i64,
            Series::Drifts(drift) => (turn * u64::from(drift) / 2) as i64,
            Series::Errors(epsilon) => (turn * u64::from(epsilon)) as i64 - i64::from(epsilon),
        }
    }

    /// A row.
    pub fn row(self, alloc: Global, row: u8, nodes: u8) -> Result<Vec<i64>, AllocError>
        requires { InRange self row nodes }
        ensures { IfOk result (λ v. v.items ≡ map (number_at self row) (ids_below nodes)) }
    {
        let mut numbers = Vec::new(alloc);
        for node in 0..nodes {
            numbers.push(self.at(row, node))?;
        }
        Ok(numbers)
    }

    /// Three rows.
    pub fn three_rows(self, alloc: Global, nodes: u8) -> Result<Vec<Vec<i64>>, AllocError>
        requires { InRange self 2 nodes }
        ensures { IfOk result (λ v. map (λ r. r.items) v.items ≡ three_rows self nodes) }
    {
        let mut rows = Vec::new(alloc);
        for row in 0..3 {
            rows.push(self.row(alloc, row, nodes)?)?;
        }
        Ok(rows)
    }
}
