//! Answers of the calls as words.

use node_grid::NodeSet;
use omh_paths::Wrapped;
use std::fmt::{self, Display, Formatter, Write};

/// A wrapped value: the value, or `fault K`.
#[derive(Clone, Copy)]
pub struct Said(pub Wrapped<u8>);

impl Display for Said {
    fn fmt<W: Write>(&self, f: &mut Formatter<W>) -> fmt::Result {
        match self.0 {
            Wrapped::Plain(value) => write!(f, "plain {value}"),
            Wrapped::Fault(count) => write!(f, "fault {count}"),
        }
    }
}

/// A set of nodes: `nodes` and its members, the least first, or `nobody`.
#[derive(Clone, Copy)]
pub struct Nodes<const N: usize>(pub NodeSet<N>);

impl<const N: usize> Display for Nodes<N> {
    fn fmt<W: Write>(&self, f: &mut Formatter<W>) -> fmt::Result {
        if self.0.is_empty() {
            return f.write_str("nobody");
        }
        f.write_str("nodes")?;
        for id in self.0.iter() {
            write!(f, " {id}")?;
        }
        Ok(())
    }
}
