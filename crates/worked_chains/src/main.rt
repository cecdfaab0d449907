//! Items of drawn phases, settled by paths of odd members and by all paths: how often both answer
//! alike.
#![tactic(auto)]

mod draws;
mod lies;
mod plain;

ghost use Rattle.odd_relays.specs.Telling.{telling, HasFewOdd};
ghost use Rattle.worked_chains.specs.Lies.{drawn_lie};

use draws::{Drawn, Draws};
use lies::Lies;
use node_grid::NodeSet;
use odd_relays::{Item, WORK};
use omh_paths::Wrapped;
use std::io;
use worked_rows::rows;

/// How many phases are drawn.
const DRAWN: u32 = 600;

/// How many items were drawn, and of how many which calls answered like the plain program.
#[derive(Clone, Copy)]
struct Counts {
    items: u32,
    bounds: u32,
    few: u32,
    at_once: u32,
    one_by_one: u32,
    convicted: u32,
}

/// One more, where this is so.
fn count_if(count: u32, is_so: bool) -> u32 {
    count.saturating_add(is_so as u32)
}

/// Whether each node that is awake, but the commander, has the value that it should.
fn are_settled(drawn: &Drawn, all: &[Wrapped<u8>; 16]) -> bool {
    for i in drawn.awake.iter() {
        if i != drawn.commander && all[i as usize] != plain::settled(drawn, i) {
            return false;
        }
    }
    true
}

/// What each of these nodes settles for the item, one by one.
fn settle_each(
    item: &Item<u8, Lies, 16>,
    awake: &NodeSet<16>,
    work: &mut [Wrapped<u8>; WORK],
    all: &mut [Wrapped<u8>; 16],
)
    requires { HasFewOdd (telling drawn_lie item.now) }
{
    for i in awake.iter() {
        if i != item.commander {
            let value = item.settle(i, work);
            all[i as usize] = value;
        }
    }
}

/// Whether those nodes convict the commander that should.
fn are_convicting(item: &Item<u8, Lies, 16>, drawn: &Drawn) -> bool {
    let _ = item.phase.members.len();
    let others = drawn.awake.without(item.commander);
    let convicting = item.convicting(&others);
    for i in others.iter() {
        if convicting.has(i) != plain::convicts(drawn, i) {
            return false;
        }
    }
    true
}

/// Settles an item by both programs, at once and one by one, if few members are odd.
fn count_settled(counts: &mut Counts, drawn: &Drawn, work: &mut [Wrapped<u8>; WORK]) {
    let item = drawn.item();
    if !item.has_few_odd() {
        return;
    }
    counts.few = count_if(counts.few, true);
    let mut all = [Wrapped::Fault(0); 16];
    item.settle_all(&drawn.awake, work, &mut all);
    counts.at_once = count_if(counts.at_once, are_settled(drawn, &all));
    settle_each(&item, &drawn.awake, work, &mut all);
    counts.one_by_one = count_if(counts.one_by_one, are_settled(drawn, &all));
}

/// Settles an item by both programs where few members are odd, and convicts by both.
fn count_item(counts: &mut Counts, drawn: &Drawn, work: &mut [Wrapped<u8>; WORK]) {
    let item = drawn.item();
    let has_few = item.has_few_odd();
    counts.items = count_if(counts.items, true);
    counts.bounds = count_if(counts.bounds, has_few == plain::has_few_odd(drawn));
    count_settled(counts, drawn, work);
    let convicting = are_convicting(&item, drawn);
    counts.convicted = count_if(counts.convicted, convicting);
}

/// Draws a phase, and counts the item of each of its members.
fn count_phase(counts: &mut Counts, draws: &mut Draws, work: &mut [Wrapped<u8>; WORK]) {
    let nodes = draws.nodes();
    for commander in nodes.members.iter() {
        let drawn = draws.item(&nodes, commander);
        count_item(counts, &drawn, work);
    }
}

/// What is counted of all drawn phases.
fn count_drawn() -> Counts {
    let mut draws = Draws::new(7);
    let mut counts = Counts {
        items: 0,
        bounds: 0,
        few: 0,
        at_once: 0,
        one_by_one: 0,
        convicted: 0,
    };
    let mut work = [Wrapped::Fault(0); WORK];
    for _ in 0..DRAWN {
        count_phase(&mut counts, &mut draws, &mut work);
    }
    counts
}

/// Prints what was counted.
fn print_counts(rt: &HostRuntime, counts: &Counts) -> io::Result<()> {
    rows(
        rt,
        &[
            ("items drawn", counts.items),
            ("  of which the bound is as it should be", counts.bounds),
            ("  of which few members are odd", counts.few),
            (
                "    of which all nodes settle as by all paths, at once",
                counts.at_once,
            ),
            ("    and one by one", counts.one_by_one),
            (
                "  of which the commander is convicted as by all relays",
                counts.convicted,
            ),
        ],
    )
}

fn main(rt: HostRuntime) -> anyhow::Result<()> {
    print_counts(&rt, &count_drawn())?;
    Ok(())
}
