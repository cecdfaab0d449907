//! What comes over a link.

ghost use Rattle.std.specs.Prelude.{◌≡◌};
ghost use Rattle.heard_links.specs.Coming.{is_untouched};

use omh_paths::Exact;

/// What comes of a frame over the link from one node to another.
#[derive(Clone, Copy, Drop)]
pub enum Came<V> {
    /// The frame as it was sent, and read by the members by which it was sent.
    Untouched,
    /// A frame that isn't good, with the kind of its error.
    Bad(u8),
    /// A good first frame, which tells this.
    Told(V),
    /// A good relay frame; its entries are read when they are asked for.
    Good,
}

impl<V: Exact> Came<V> {
    /// Whether it is the frame as it was sent.
    pub(crate) fn is_untouched(&self) -> bool
        ensures { result ≡ is_untouched self.now }
    {
        match self {
            Came::Untouched => true,
            Came::Bad(_) | Came::Told(_) | Came::Good => false,
        }
    }
}
