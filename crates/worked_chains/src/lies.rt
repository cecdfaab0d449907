//! What drawn odd members pass on.

ghost use Rattle.std.specs.Prelude.{◌≡◌, ◌≢◌, ◌+◌, ◌*◌, ◌≤◌, ◌%◌, length, take};
ghost use Rattle.omh_paths.specs.declared.wrapped.Wrapped.TheVariants.{Fault};
ghost use Rattle.worked_chains.specs.Lies.{mixed, drawn_value, account_of, drawn_lie};

use odd_relays::Relays;
use omh_paths::{Path, Wrapped};

/// What odd members pass on of an item: a value that follows from a seed, the receiver and the
/// path.
#[derive(Clone, Copy)]
pub struct Lies {
    /// What the values follow from.
    pub seed: u8,
    /// How many nodes the paths of the last round have.
    pub last: u8,
    /// Whether there are three groups of receivers, each of which is told the same in the last
    /// round.
    pub by_thirds: bool,
}

/// A number made of another one and of a node.
fn mix(k: u32, q: u8) -> u32
    ensures mixed { result ≡ (7 * k + q) % 251 }
    ensures small { result ≤ 250 }
{
    ((7 * k as u64 + q as u64) % 251) as u32
}

/// The value of a number.
pub fn drawn_value(k: u32) -> Wrapped<u8>
    ensures value { result ≡ drawn_value k }
    ensures known { result ≢ Fault 255 }
{
    let rest = (k % 5) as u8;
    if rest < 2 {
        Wrapped::Fault(rest)
    } else {
        Wrapped::Plain(rest)
    }
}

impl Lies {
    /// Which of its accounts a receiver is given of a path of so many nodes.
    fn account(&self, to: u8, len: usize) -> u8
        ensures { result ≡ account_of self.now to len }
    {
        if self.by_thirds && len == self.last as usize {
            to % 3
        } else {
            to
        }
    }

    /// What a receiver is told for these nodes of a path.
    pub fn told(&self, to: u8, nodes: &[u8]) -> Wrapped<u8>
        ensures told { result ≡ drawn_lie self.now to nodes.now }
        ensures known { result ≢ Fault 255 }
    {
        let account = self.account(to, nodes.len());
        let mut k = (self.seed as u32 + 31 * account as u32) % 251;
        for q in nodes {
            k = mix(k, *q);
        }
        drawn_value(k)
    }
}

/// The nodes of a path.
fn nodes_of(path: &Path) -> [u8; 4]
    ensures { take (length path.now) result ≡ path.now }
{
    let mut nodes = [0; 4];
    for k in 0..path.len() {
        nodes[k as usize] = path.at(k);
    }
    nodes
}

impl Relays<u8> for Lies {
    ghost says = { drawn_lie };

    fn said(&self, to: u8, path: &Path) -> Wrapped<u8> {
        let nodes = nodes_of(path);
        self.told(to, &nodes[..path.len() as usize])
    }

    fn is_alike(&self, i: u8, j: u8, len: u8) -> bool {
        i == j || (self.by_thirds && len == self.last && i % 3 == j % 3)
    }
}
