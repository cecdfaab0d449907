ghost use Rattle.std.specs.Prelude.{◌≡◌, ◌≢◌, ℕ, ◌<◌, ◌≤◌, ◌+◌, ◌-◌, ◌*◌, ◌∷◌, [], List, length};
ghost use Rattle.std.specs.Prelude.{take, slice_index_or, true};
ghost use Rattle.node_grid.specs.NodeSet.{has_id};
ghost use Rattle.omh_paths.specs.declared.wrapped.Wrapped.{Wrapped};
ghost use Rattle.omh_paths.specs.declared.wrapped.Wrapped.TheVariants.{Fault};
ghost use Rattle.omh.specs.Omh.{own_term, settled_at};
ghost use Rattle.equivocation.specs.Conviction.{convicts};

use crate::values::{convict_by, set_value, settled_from_terms};
use node_grid::NodeSet;
use omh::outside;
use omh_paths::{Exact, Path, Wrapped};

/// How many values a listener works in.
pub const TERMS: usize = 48;

/// What one node heard of the relays of items.
pub trait Hearing<V: Exact> {
    ghost hears: { Self → List ℕ → Wrapped V };

    /// What it heard for a path that it isn't on.
    fn heard(&self, path: &Path) -> Wrapped<V>
        ensures is { result ≡ hears self.now path.now }
        ensures known { result ≢ Fault 255 };
}

/// One node that hears the relays of items, with members of its own.
#[derive(Clone, Copy)]
pub struct Listener<const N: usize> {
    /// The rounds of relaying, m.
    pub rounds: u8,
    /// The members.
    pub members: NodeSet<N>,
    /// The node itself.
    pub me: u8,
    /// Whether it is Full.
    pub full: bool,
    pub ghost fits: { N ≤ 16 },
    pub ghost short: { rounds ≤ 3 },
}

impl<const N: usize> Listener<N> {
    ghost use Rattle.settled_items.specs.Listening.{listener_ear};

    /// What it puts into the majority of a path for itself.
    fn own_term<V: Exact, H: Hearing<V>>(&self, hearing: &H, path: &Path) -> Wrapped<V>
        ensures { result ≡ own_term (listener_ear self.now (H.hears hearing.now)) path.now }
    {
        if self.full {
            hearing.heard(path).wrap()
        } else {
            Wrapped::Fault(0)
        }
    }

    /// What it settles for a path, by what it settles for those of one relay more. The terms are
    /// laid from `from` on, and what lies behind is worked on.
    fn settle_path<V: Exact, H: Hearing<V>>(
        &self,
        hearing: &H,
        path: &Path,
        work: &mut [Wrapped<V>],
        from: usize,
    ) -> Wrapped<V>
        requires nodes { (q : ℕ) → has_id path.now q ≡ true → q < N }
        requires short { length path.now ≤ self.now.rounds + 1 }
        requires room { from + 16 * (self.now.rounds + 1 - length path.now) ≤ length work.old }
        ensures settled { result ≡
            settled_at V.eq (listener_ear self.now (H.hears hearing.now)) path.now }
        ensures kept { take from work.new ≡ take from work.old }
        ensures room { length work.new ≡ length work.old }
    {
        if path.len() > self.rounds {
            return hearing.heard(path);
        }
        let mut end = from;
        for q in outside(&self.members, path).iter() {
            let term = if q == self.me {
                self.own_term(hearing, path)
            } else {
                self.settle_path(hearing, &path.then(q), work, end)
            };
            set_value(work, end, term);
            end += 1;
        }
        settled_from_terms(work, from, end)
    }

    /// What it settles for the item of another member, by all paths behind it. `work` has `TERMS`
    /// places, and is left with no meaning.
    pub fn settle<V: Exact, H: Hearing<V>>(
        &self,
        hearing: &H,
        commander: u8,
        work: &mut [Wrapped<V>],
    ) -> Wrapped<V>
        requires commander { commander < N }
        requires room { length work.old ≡ TERMS }
        ensures settled { result ≡
            settled_at V.eq (listener_ear self.now (H.hears hearing.now)) (commander ∷ []) }
        ensures room { length work.new ≡ TERMS }
    {
        self.settle_path(hearing, &Path::root(commander), work, 0)
    }

    /// Whether it convicts another member. `work` has `TERMS` places, and is left with no meaning.
    pub fn convicts<V: Exact, H: Hearing<V>>(
        &self,
        hearing: &H,
        commander: u8,
        work: &mut [Wrapped<V>],
    ) -> bool
        requires member { has_id self.now.members commander ≡ true }
        requires node { self.now.me < N }
        requires other { commander ≢ self.now.me }
        requires room { length work.old ≡ TERMS }
        ensures convicts { result ≡
            convicts V.eq (listener_ear self.now (H.hears hearing.now)) commander }
        ensures room { length work.new ≡ TERMS }
    {
        let _ = self.members.len();
        let root = Path::root(commander);
        let mut end = 0;
        for q in outside(&self.members, &root.then(self.me)).iter() {
            let relay = hearing.heard(&root.then(q));
            set_value(work, end, relay);
            end += 1;
        }
        let counted = self.full && self.members.has(self.me);
        convict_by(hearing.heard(&root), work, end, counted, self.rounds)
    }
}
