//! Which nodes fall ill, when, for how long and how: drawn from a generator.
ghost use Rattle.std.specs.Prelude.{◌≡◌, ◌+◌, ◌-◌, ◌*◌, ◌^◌, ◌<◌, ◌≤◌, ℤ, Option, IfOk, OnOk};
ghost use Rattle.drawn_scenarios.specs.Adding.{Draws, AddsBouts};
ghost use Rattle.drawn_scenarios.specs.Bouts.{value_drawn, accusation_drawn, two_values};
ghost use Rattle.drawn_scenarios.specs.Bouts.{split_drawn, lie_drawn, maybe_lie, maybe_lies};
ghost use Rattle.drawn_scenarios.specs.Bouts.{benign, symmetric, asymmetric, conduct_drawn};
ghost use Rattle.drawn_scenarios.specs.Bouts.{bout_drawn, channel_count, story, drawn_bouts};

use crate::bout::{Bout, Conduct, Fault};
use crate::choices::FaultClass;
use crate::options::Options;
use draws::{draw, draw_wide, generator};
use rand_pcg::Lcg64Xsh32;
use std::alloc::{AllocError, Global};

/// How many values may be told wrongly, from -2000 on.
const VALUES: u32 = 4001;

/// How many illnesses a scenario has room for: each has at most two fault lines and two lies, of
/// which there may be 4,096.
const MOST_BOUTS: u32 = 2048;

/// Of how many chances a rate is.
const CHANCES: u32 = 65_536;

/// How many indices a seed has.
const STREAMS: u64 = 1 << 32;

/// The kinds of error that all are told of another node: it deviates.
const TO_ALL: u8 = 128;

/// Those that some are told: it deviates, and is missing.
const TO_SOME: u8 = 129;

/// All bouts of an index.
///
/// # Errors
/// Want of memory.
pub fn draw_bouts(
    alloc: Global,
    options: &Options,
    seed: u32,
    index: u32,
) -> Result<Vec<Bout>, AllocError>
    ensures { IfOk result (λ bs. bs.items ≡ drawn_bouts options.now.choices seed index) }
{
    let mut generator = generator(STREAMS * u64::from(seed) + u64::from(index));
    let mut bouts = Vec::new(alloc);
    let mut ill = options.choices.faulty;
    for node in 0..options.choices.nodes {
        if draw(&mut generator, u32::from(options.choices.nodes - node)) < u32::from(ill) {
            push_story(&mut bouts, &mut generator, options, node)?;
            ill -= 1;
        }
    }
    Ok(bouts)
}

/// Draws the bouts of a node that falls ill.
fn push_story(
    bouts: &mut Vec<Bout>,
    generator: &mut Lcg64Xsh32,
    options: &Options,
    node: u8,
) -> Result<(), AllocError>
    requires some { 0 < options.now.choices.faulty }
    requires node { node < options.now.choices.nodes }
    ensures { OnOk result (AddsBouts bouts.old.items bouts.new.items generator.old
        generator.new (story options.now.choices node)) }
{
    let classes = options.choices.classes;
    let class = classes.at(draw(generator, classes.count()));
    let mut left = MOST_BOUTS / u32::from(options.choices.faulty);
    let mut well = 1;
    for period in 1..options.choices.periods {
        if period < well {
            continue;
        }
        if left == 0 {
            return Ok(());
        }
        if draw(generator, CHANCES) < options.choices.rate {
            let bout = draw_bout(generator, options, node, class, period);
            bouts.push(bout)?;
            left -= 1;
            well = options.well_after(&bout);
        }
    }
    Ok(())
}

/// Draws a bout that begins in this period.
fn draw_bout(
    generator: &mut Lcg64Xsh32,
    options: &Options,
    node: u8,
    class: FaultClass,
    first: u32,
) -> Bout
    requires node { node < options.now.choices.nodes }
    requires first { first < options.now.choices.periods }
    ensures { Draws result generator.old
        generator.new (bout_drawn options.now.choices node class first) }
{
    let more = draw(generator, options.choices.length);
    let conduct = match class {
        FaultClass::Benign => benign(generator),
        FaultClass::Symmetric => symmetric(generator, options, node),
        FaultClass::Asymmetric => asymmetric(generator, options, node),
    };
    Bout {
        node,
        first,
        last: (first + more).min(options.choices.periods - 1),
        conduct,
    }
}

/// Silent, late or twice, to all in all slots.
fn benign(generator: &mut Lcg64Xsh32) -> Conduct
    ensures { Draws result generator.old generator.new benign }
{
    let fault = match draw(generator, 3) {
        0 => Fault::Silent,
        1 => Fault::Late,
        _ => Fault::Twice,
    };
    Conduct::Alike { fault, lie: None }
}

/// A wrong value or a false accusation, to all.
fn symmetric(generator: &mut Lcg64Xsh32, options: &Options, node: u8) -> Conduct
    requires { node < options.now.choices.nodes }
    ensures { Draws result generator.old generator.new (symmetric options.now.choices node) }
{
    let fault = if draw(generator, 2) == 0 {
        value(generator, options)
    } else {
        accusation(generator, options, node, TO_ALL)
    };
    Conduct::Alike {
        fault,
        lie: maybe_lie(generator, options),
    }
}

/// Two values, or silent to some, or a false accusation to some.
fn asymmetric(generator: &mut Lcg64Xsh32, options: &Options, node: u8) -> Conduct
    requires { node < options.now.choices.nodes }
    ensures { Draws result generator.old generator.new (asymmetric options.now.choices node) }
{
    let some = 1 + draw(generator, options.set_count() - 2);
    let (fault, rest) = match draw(generator, 4) {
        0 | 1 => two_values(generator, options),
        2 => (Fault::Silent, None),
        _ => (accusation(generator, options, node, TO_SOME), None),
    };
    Conduct::Apart {
        some,
        fault,
        rest,
        lies: maybe_lies(generator, options),
    }
}

/// How many channels may be told wrongly.
fn channel_count(options: &Options) -> u32
    ensures { result ≡ channel_count options.now.choices }
{
    if options.choices.copies { 2 } else { 1 }
}

/// A wrong value of a channel.
fn value(generator: &mut Lcg64Xsh32, options: &Options) -> Fault
    ensures { Draws result generator.old generator.new (value_drawn options.now.choices) }
{
    let channel = draw(generator, channel_count(options)) as u8;
    Fault::Value {
        channel,
        value: draw(generator, VALUES),
    }
}

/// Two different values of a channel.
fn two_values(generator: &mut Lcg64Xsh32, options: &Options) -> (Fault, Option<Fault>)
    ensures { Draws result generator.old generator.new (two_values options.now.choices) }
{
    let channel = draw(generator, channel_count(options)) as u8;
    let value = draw(generator, VALUES);
    let more = draw(generator, VALUES - 1);
    let other = Fault::Value {
        channel,
        value: (value + 1 + more) % VALUES,
    };
    (Fault::Value { channel, value }, Some(other))
}

/// A false accusation of another node, of these kinds.
fn accusation(generator: &mut Lcg64Xsh32, options: &Options, node: u8, kinds: u8) -> Fault
    requires { node < options.now.choices.nodes }
    ensures { Draws result generator.old generator.new
        (accusation_drawn options.now.choices node kinds) }
{
    let nodes = u32::from(options.choices.nodes);
    let accused = (u32::from(node) + 1 + draw(generator, nodes - 1)) % nodes;
    Fault::Accusation {
        accused: accused as u8,
        kinds,
    }
}

/// A lie of a clock, of at most so much more or less.
fn lie(generator: &mut Lcg64Xsh32, most: u64) -> i64
    requires { most ≤ 2 ^ 40 }
    ensures { Draws result generator.old generator.new (lie_drawn most) }
{
    draw_wide(generator, 2 * most + 1) as i64 - most as i64
}

/// A lie to all, where there are clocks.
fn maybe_lie(generator: &mut Lcg64Xsh32, options: &Options) -> Option<i64>
    ensures { Draws result generator.old generator.new (maybe_lie options.now.choices.clock) }
{
    match &options.choices.clock {
        None => None,
        Some(clock) => Some(lie(generator, clock.lie)),
    }
}

/// A lie to some and one to the rest, where there are clocks.
fn maybe_lies(generator: &mut Lcg64Xsh32, options: &Options) -> Option<(i64, i64)>
    ensures { Draws result generator.old generator.new (maybe_lies options.now.choices.clock) }
{
    match &options.choices.clock {
        None => None,
        Some(clock) => {
            let to_some = lie(generator, clock.lie);
            let to_rest = lie(generator, clock.lie);
            Some((to_some, to_rest))
        }
    }
}
