//! What a node settles of an item, and whether it convicts its commander, by all paths of relaying.

use crate::draws::Drawn;
use omh_paths::{Wrapped, majority};

/// A value as a relay passes it on.
fn passed(value: Wrapped<u8>) -> Wrapped<u8> {
    match value {
        Wrapped::Fault(k) => Wrapped::Fault(k.saturating_add(1)),
        plain => plain,
    }
}

/// A value as it is taken from a relay.
fn taken(value: Wrapped<u8>) -> Wrapped<u8> {
    match value {
        Wrapped::Fault(k) => Wrapped::Fault(k.saturating_sub(1)),
        plain => plain,
    }
}

/// What node `i` heard for a path: what was told, as it went from node to node.
fn heard(drawn: &Drawn, i: u8, path: &[u8]) -> Wrapped<u8> {
    let mut value = Wrapped::Fault(0);
    for k in 0..path.len() {
        let to = if k + 1 < path.len() { path[k + 1] } else { i };
        value = if k == 0 {
            drawn.told[(to % 16) as usize]
        } else if drawn.odd.has(path[k]) {
            drawn.lies.told(to, &path[..k + 1])
        } else if drawn.full.has(path[k]) {
            passed(value)
        } else {
            Wrapped::Fault(0)
        };
    }
    value
}

/// What node `i` itself puts into the majority of a path.
fn own_term(drawn: &Drawn, i: u8, path: &[u8]) -> Wrapped<u8> {
    if drawn.full.has(i) {
        passed(heard(drawn, i, path))
    } else {
        Wrapped::Fault(0)
    }
}

/// These nodes with one more behind the first `len`, if there is room for it.
fn with_node(nodes: &[u8; 4], len: u8, q: u8) -> [u8; 4] {
    let mut longer = *nodes;
    if len < 4 {
        longer[len as usize] = q;
    }
    longer
}

/// What node `i` settles for the path of the first `len` of these nodes, at most all four.
fn settled_for(drawn: &Drawn, i: u8, nodes: &[u8; 4], len: u8) -> Wrapped<u8> {
    let path = &nodes[..len.min(4) as usize];
    if len > drawn.rounds || len >= 4 {
        return heard(drawn, i, path);
    }
    let mut terms = [Wrapped::Fault(0); 16];
    for q in drawn.members.iter() {
        if !path.contains(&q) {
            terms[(q % 16) as usize] = if q == i {
                own_term(drawn, i, path)
            } else {
                settled_for(drawn, i, &with_node(nodes, len, q), len + 1)
            };
        }
    }
    taken(majority(&terms))
}

/// What node `i` settles for the item.
pub fn settled(drawn: &Drawn, i: u8) -> Wrapped<u8> {
    settled_for(drawn, i, &[drawn.commander, 0, 0, 0], 1)
}

/// Whether node `i` convicts the commander.
pub fn convicts(drawn: &Drawn, i: u8) -> bool {
    let own = passed(heard(drawn, i, &[drawn.commander]));
    let mut voices = (drawn.full.has(i) && drawn.members.has(i)) as u8;
    let mut against = 0u8;
    for q in drawn.members.iter() {
        let relay = heard(drawn, i, &[drawn.commander, q]);
        if q != i && q != drawn.commander && relay != Wrapped::Fault(0) {
            voices = voices.saturating_add(1);
            if relay != own {
                against = against.saturating_add(1);
            }
        }
    }
    drawn.rounds > 0 && against > voices.saturating_sub(drawn.rounds) / 2
}

/// Whether the odd members are few enough.
pub fn has_few_odd(drawn: &Drawn) -> bool {
    let mut weight = drawn.rounds;
    let mut members = 0u8;
    for q in drawn.members.iter() {
        members = members.saturating_add(1);
        if drawn.odd.has(q) {
            weight = weight.saturating_add(2);
        } else if !drawn.full.has(q) {
            weight = weight.saturating_add(1);
        }
    }
    weight < members
}
