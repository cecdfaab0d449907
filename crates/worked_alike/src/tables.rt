//! What a node passes on, settles, and whom it convicts, of what it heard: by the plain table, and
//! by the one that a run keeps.

ghost use Rattle.std.specs.Prelude.{◌≡◌, ◌≢◌, true, IfOk};
ghost use Rattle.node_grid.specs.NodeSet.{has_id, without_id};
ghost use Rattle.omh_paths.specs.declared.wrapped.Wrapped.TheVariants.{Fault};

use crate::draws::Draws;
use crate::relays::Relays;
use crate::sayings::{Saying, any_relay, any_told, as_relayed, heard, passed_on, taken_back};
use crate::seats::{Rounds, Seat, size_of};
use equivocation::convict;
use node_grid::NoMemory;
use omh::Table as PlainTable;
use omh_paths::{Path, Wrapped, count_paths, unrank};
use relay_table::Table;
use relay_terms::Term;
use std::alloc::{AllocError, Global};
use std::io;
use worked_rows::{row, rows};

/// How many nodes are drawn for each number of relay rounds.
const DRAWN: u32 = 60;

/// How many periods each of them goes through, with other members in each.
const PERIODS: u32 = 2;

/// The item of the node itself.
const OWN: u8 = 2;

/// How many answers were compared, and whether all of them are alike.
#[derive(Clone, Copy)]
struct Alike {
    compared: u32,
    all: bool,
}

impl Alike {
    fn none() -> Alike {
        Alike {
            compared: 0,
            all: true,
        }
    }

    /// Takes up two answers.
    fn add(&mut self, are_alike: bool) {
        self.compared = self.compared.saturating_add(1);
        self.all = are_alike && self.all;
    }
}

/// What a node answered in its periods, beside the plain program.
#[derive(Clone, Copy)]
struct Answers {
    settle: Alike,
    relay: Alike,
    convict: Alike,
    /// Whether it convicted a member.
    convicts: bool,
    /// Whether it settled no item of a member.
    errs: bool,
}

impl Answers {
    fn none() -> Answers {
        Answers {
            settle: Alike::none(),
            relay: Alike::none(),
            convict: Alike::none(),
            convicts: false,
            errs: false,
        }
    }
}

/// A member's turn to relay, and what its frame says.
#[derive(Clone, Copy)]
struct Turn {
    sender: u8,
    saying: Saying,
}

/// What one node heard, in both; and what it heard of each node itself.
#[derive(Drop)]
struct Pair {
    seat: Seat,
    roots: [Wrapped<u8>; 16],
    plain: PlainTable<u8, 16>,
    live: Table<u8, 16>,
    ghost nodes: { (plain.nodes ≡ seat.nodes) × (live.nodes ≡ seat.nodes) },
    ghost rounds: { (plain.rounds ≡ seat.rounds) × (live.rounds ≡ seat.rounds) },
    ghost members: { (plain.members ≡ seat.members) × (live.members ≡ seat.members) },
    ghost me: { (plain.me ≡ seat.me) × (live.me ≡ seat.me) },
}

impl Pair {
    /// Both tables of a drawn node, before there are members.
    fn open(alloc: Global, draws: &mut Draws, rounds: Rounds) -> Result<Pair, NoMemory> {
        let seat = Seat::first(draws, rounds);
        Ok(Pair {
            seat,
            roots: [Wrapped::Fault(0); 16],
            plain: PlainTable::open(alloc, seat.nodes, seat.rounds)?,
            live: Table::open(alloc, seat.nodes, seat.rounds)?,
        })
    }

    /// Begins a period with drawn members.
    fn start(&mut self, draws: &mut Draws) {
        let seat = self.seat.drawn(draws);
        self.plain
            .start(&seat.members, seat.me, seat.full, Wrapped::Plain(OWN));
        self.live.start(&seat.members, seat.me, seat.full, OWN);
        self.roots = [Wrapped::Fault(0); 16];
        self.seat = seat;
    }

    /// Goes into a relay round: the last one where there are fewer.
    fn enter(&mut self, round: u8) {
        self.seat.round = round.max(1).min(self.seat.rounds);
    }

    /// Goes into the last relay round.
    fn enter_last(&mut self)
        ensures { self.new.seat.round ≡ self.new.seat.rounds }
    {
        self.seat.round = self.seat.rounds;
    }

    /// Hears what another member tells of itself, if it tells an item.
    fn hear_item(&mut self, draws: &mut Draws, member: u8)
        ensures { self.new.seat ≡ self.old.seat }
    {
        if self.seat.is_other(member) {
            let told = any_told(draws);
            self.plain.put(&Path::root(member), heard(told));
            self.live.hear_item(member, told);
            self.roots[member as usize] = heard(told);
        }
    }

    /// Hears what each other member tells of itself.
    fn hear_items(&mut self, draws: &mut Draws) {
        for member in 0..self.seat.nodes {
            self.hear_item(draws, member);
        }
    }

    /// What is expected to be said of a node after so many relays.
    fn expected(&self, c: u8, relays: u8) -> Wrapped<u8> {
        let mut value = match self.roots.get(c as usize) {
            Some(root) => *root,
            None => Wrapped::Fault(0),
        };
        for _ in 0..relays {
            value = passed_on(value);
        }
        value
    }

    /// What a member's frame says of a path of other members, of which the node itself passes on
    /// this.
    fn said(
        &self,
        draws: &mut Draws,
        saying: Saying,
        path: &Path,
        echo: Wrapped<u8>,
    ) -> Wrapped<u8> {
        let relays = path.len();
        match saying {
            Saying::Nothing => Wrapped::Fault(0),
            Saying::Echo => echo,
            Saying::Expected => self.expected(path.at(0), relays),
            Saying::Odd => {
                if draws.is_one_of_sixteen(self.seat.odd) {
                    any_relay(draws, relays)
                } else {
                    self.expected(path.at(0), relays)
                }
            }
        }
    }

    /// Takes an entry of a member's frame: what it says of a path of others is written, and put
    /// into the plain table where the node itself isn't on the path.
    fn take_entry(&mut self, draws: &mut Draws, turn: Turn, place: usize, relays: &mut Relays)
        requires { has_id (without_id self.old.seat.members self.old.seat.me) turn.sender ≡ true }
        ensures seat { self.new.seat ≡ self.old.seat }
        ensures relays { relays.new.seat ≡ relays.old.seat }
    {
        let sender = turn.sender;
        let Some(path) = self.seat.path_at(sender, self.seat.round, place) else {
            return;
        };
        if path.has(self.seat.me) {
            let value = any_relay(draws, path.len());
            relays.write(sender, place, as_relayed(value));
        } else {
            let echo = self.plain.relay(&path);
            let said = as_relayed(self.said(draws, turn.saying, &path, echo));
            relays.write(sender, place, said);
            self.plain.put(&path.then(sender), said);
        }
    }

    /// Takes the frame of another member, entry by entry.
    fn take_frame(&mut self, draws: &mut Draws, turn: Turn, relays: &mut Relays)
        ensures seat { self.new.seat ≡ self.old.seat }
        ensures relays { relays.new.seat ≡ relays.old.seat }
    {
        if !self.seat.is_other(turn.sender) {
            return;
        }
        for place in 0..relays.entries() {
            self.take_entry(draws, turn, place, relays);
        }
        relays.take(turn.sender);
    }

    /// The frames of the relay round that come, as the plain table heard them.
    fn relays(&mut self, rt: &HostRuntime, draws: &mut Draws) -> Result<Relays, AllocError>
        ensures seat { self.new.seat ≡ self.old.seat }
        ensures relays { IfOk result (λ relays. relays.seat ≡ self.old.seat) }
    {
        let mut relays = Relays::open(rt.alloc(), self.seat)?;
        for sender in 0..16u8 {
            let saying = Saying::drawn(draws);
            if saying != Saying::Nothing {
                self.take_frame(draws, Turn { sender, saying }, &mut relays);
            }
        }
        Ok(relays)
    }

    /// Lets the table hear the frames of the relay round, where it keeps their terms.
    fn hear_round(&mut self, relays: &Relays)
        requires { relays.now.seat ≡ self.old.seat }
        ensures { self.new.seat ≡ self.old.seat }
    {
        if self.seat.is_kept() {
            let mut frames = relays.round();
            self.live.hear_round(&mut frames, self.seat.round);
        }
    }

    /// What the table passes on of the path at a place in the relay round, if there is such a path.
    fn passed_on_at(&self, place: usize) -> Option<Wrapped<u8>> {
        let terms = self.live.heard(self.seat.round);
        if place < terms.len() {
            Some(terms[place].wrap().value())
        } else {
            None
        }
    }

    /// Compares what both pass on in the relay round.
    fn relay_alike(&self, alike: &mut Alike) {
        let round = self.seat.round;
        let others = self.seat.members.without(self.seat.me);
        for place in 0..count_paths(size_of(&others), round) {
            let path = unrank(&others, round, place);
            let plain = self.plain.relay(&path);
            alike.add(self.passed_on_at(place) == Some(plain));
        }
    }

    /// What the plain table has of another member itself: nothing where it is none.
    fn heard_of(&self, c: u8) -> Wrapped<u8>
        ensures { result ≢ Fault 255 }
    {
        if self.seat.is_other(c) {
            taken_back(self.plain.relay(&Path::root(c)))
        } else {
            Wrapped::Fault(0)
        }
    }

    /// Whether the node convicts another member, by the plain test over what the plain table has.
    fn convicts_plainly(&self, c: u8) -> bool {
        let seat = &self.seat;
        let others = seat.members.without(seat.me);
        let mut relays = [Wrapped::Fault(0); 15];
        let mut count = 0;
        for place in 0..count_paths(size_of(&others), 2) {
            let path = unrank(&others, 2, place);
            if path.at(0) == c && count < 15 {
                relays[count] = taken_back(self.plain.relay(&path));
                count += 1;
            }
        }
        let is_counted = seat.full && seat.members.has(seat.me);
        convict(self.heard_of(c), &relays[..count], is_counted, seat.rounds)
    }

    /// Compares whom both convict.
    fn convict_alike(&self, answers: &mut Answers) {
        let convicted = self.live.convicted();
        for c in 0..16 {
            let is_convicted = self.seat.is_other(c) && self.convicts_plainly(c);
            answers.convict.add(convicted.has(c) == is_convicted);
        }
        answers.convicts = answers.convicts || !convicted.is_empty();
    }

    /// What the plain table settles of a node's item: nothing where it is no member.
    fn settled_plainly(&mut self, c: u8) -> Wrapped<u8>
        ensures { self.new.seat ≡ self.old.seat }
    {
        if self.seat.members.has(c) {
            self.plain.settle(c)
        } else {
            Wrapped::Fault(0)
        }
    }

    /// Compares what both settle once the frames of the last relay round came.
    fn settle_alike(&mut self, relays: &Relays, answers: &mut Answers)
        requires last { self.old.seat.round ≡ self.old.seat.rounds }
        requires relays { relays.now.seat ≡ self.old.seat }
    {
        let mut items = [Term::nothing(); 16];
        let mut frames = relays.round();
        self.live.settle_round(&mut frames, &mut items);
        for c in 0..16u8 {
            let item = &items[c as usize];
            let plain = self.settled_plainly(c);
            answers.settle.add(item.value() == plain);
            answers.errs = answers.errs || self.seat.is_other(c) && item.is_nothing();
        }
    }

    /// Ends a period: hears the frames of the last relay round where their terms are kept,
    /// convicts, settles, and forgets.
    fn end(
        &mut self,
        rt: &HostRuntime,
        draws: &mut Draws,
        answers: &mut Answers,
    ) -> Result<(), AllocError> {
        self.enter_last();
        self.relay_alike(&mut answers.relay);
        let relays = self.relays(rt, draws)?;
        self.hear_round(&relays);
        self.convict_alike(answers);
        self.settle_alike(&relays, answers);
        self.live.forget();
        Ok(())
    }

    /// Goes through a period with drawn members and frames, as a node of a run does.
    fn period(
        &mut self,
        rt: &HostRuntime,
        draws: &mut Draws,
        answers: &mut Answers,
    ) -> Result<(), AllocError> {
        self.start(draws);
        self.hear_items(draws);
        for round in 1..self.seat.rounds {
            self.enter(round);
            self.relay_alike(&mut answers.relay);
            let relays = self.relays(rt, draws)?;
            self.hear_round(&relays);
        }
        self.end(rt, draws, answers)
    }

    /// What a node answers in its periods.
    fn answers(&mut self, rt: &HostRuntime, draws: &mut Draws) -> Result<Answers, AllocError> {
        let mut answers = Answers::none();
        for _ in 0..PERIODS {
            self.period(rt, draws, &mut answers)?;
        }
        Ok(answers)
    }
}

/// How many drawn nodes settle, relay and convict alike, how many convict somebody, how many settle
/// no item of some member, and how many answers were compared.
#[derive(Clone, Copy, Default)]
struct Counts {
    settle: u32,
    relay: u32,
    convict: u32,
    convicting: u32,
    erring: u32,
    compared: u32,
}

impl Counts {
    /// Adds one drawn node.
    fn add(&mut self, answers: &Answers) {
        self.settle = self.settle.saturating_add(answers.settle.all as u32);
        self.relay = self.relay.saturating_add(answers.relay.all as u32);
        self.convict = self.convict.saturating_add(answers.convict.all as u32);
        self.convicting = self.convicting.saturating_add(answers.convicts as u32);
        self.erring = self.erring.saturating_add(answers.errs as u32);
        for alike in [answers.settle, answers.relay, answers.convict] {
            self.compared = self.compared.saturating_add(alike.compared);
        }
    }
}

/// What a drawn node with so many relay rounds answers in its periods.
fn answers_of_one(
    rt: &HostRuntime,
    draws: &mut Draws,
    rounds: Rounds,
) -> Result<Answers, AllocError> {
    let Ok(mut pair) = Pair::open(rt.alloc(), draws, rounds) else {
        return Err(AllocError);
    };
    pair.answers(rt, draws)
}

/// What was counted of the drawn nodes with so many relay rounds.
fn counts_of(rt: &HostRuntime, draws: &mut Draws, rounds: Rounds) -> Result<Counts, AllocError> {
    let mut counts = Counts::default();
    for _ in 0..DRAWN {
        counts.add(&answers_of_one(rt, draws, rounds)?);
    }
    Ok(counts)
}

/// Prints how many of the drawn nodes answer alike, and how much was compared.
fn print_alike(rt: &HostRuntime, counts: &Counts) -> io::Result<()> {
    rows(
        rt,
        &[
            ("  nodes drawn", DRAWN),
            ("  of which settle alike", counts.settle),
            ("  relay alike", counts.relay),
            ("  convict alike", counts.convict),
            ("  answers compared", counts.compared),
        ],
    )
}

/// Prints of which kinds they are.
fn print_kinds(rt: &HostRuntime, counts: &Counts) -> io::Result<()> {
    rows(
        rt,
        &[
            ("  some convict a member", counts.convicting > 0),
            ("  some convict nobody", counts.convicting < DRAWN),
            ("  some settle no item of a member", counts.erring > 0),
            ("  some settle one of each", counts.erring < DRAWN),
        ],
    )
}

/// Prints what was counted of those with so many relay rounds.
fn print_counts(rt: &HostRuntime, rounds: u8, counts: &Counts) -> io::Result<()> {
    row(rt, "relay rounds", rounds)?;
    print_alike(rt, counts)?;
    print_kinds(rt, counts)
}

pub fn print(rt: &HostRuntime) -> anyhow::Result<()> {
    let mut draws = Draws::new(11);
    for rounds in [Rounds::One, Rounds::Two, Rounds::Three] {
        let counts = counts_of(rt, &mut draws, rounds)?;
        print_counts(rt, rounds.count(), &counts)?;
    }
    Ok(())
}
