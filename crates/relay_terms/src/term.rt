ghost use Rattle.std.specs.Prelude.{◌≡◌, ◌≢◌, ◌+◌, ◌<◌, ℕ, List, length, drop, slice_index};
ghost use Rattle.omh_paths.specs.declared.wrapped.Wrapped.TheVariants.{Plain, Fault};
ghost use Rattle.omh_paths.specs.Wrapped.{wrapped, unwrapped, is_error, same};
ghost use Rattle.relay_terms.specs.Terms.{said, term_in};

use omh_paths::{Exact, Wrapped};

/// The tag of a term of which nothing was heard.
const NOTHING: u8 = 255;

/// What relays pass on of a node, as the bytes that it has in a frame.
pub trait Item: Exact + Drop {
    /// The item that these bytes are.
    ghost of_bytes: { List ℕ → Self };

    /// What stands in the place of an item where there is none.
    fn blank() -> Self;

    /// The item of these bytes.
    fn read(bytes: &[u8]) -> Self
        ensures { result ≡ of_bytes bytes.now };
}

/// An item, or an error with the number of relays that it went through.
///
/// Tag 0 is an item and tag k an error that was wrapped k times, as in frames; 255 is the error
/// itself, of which no frame tells.
#[derive(Clone, Copy, Drop)]
pub struct Term<V> {
    tag: u8,
    item: V,
}

impl<V: Item> Term<V> {
    /// Nothing was heard.
    pub fn nothing() -> Term<V>
        ensures { said result ≡ Fault 0 }
    {
        Term {
            tag: NOTHING,
            item: V::blank(),
        }
    }

    /// An item as it was told.
    pub fn item(item: V) -> Term<V>
        ensures { said result ≡ Plain item }
    {
        Term { tag: 0, item }
    }

    /// The term of an entry of a frame: its tag, and then its item.
    pub fn read(entry: &[u8]) -> Term<V>
        requires some { 0 < length entry.now }
        requires tag { slice_index entry.now 0 < 255 }
        ensures { said result ≡ term_in V.of_bytes entry.now }
    {
        Term {
            tag: entry[0],
            item: V::read(&entry[1..]),
        }
    }

    /// The item, or the error, that it is.
    pub fn value(&self) -> Wrapped<V>
        ensures { result ≡ said self.now }
    {
        match self.tag {
            0 => Wrapped::Plain(self.item),
            NOTHING => Wrapped::Fault(0),
            tag => Wrapped::Fault(tag),
        }
    }

    /// Whether this is the error itself.
    pub fn is_nothing(&self) -> bool
        ensures { result ≡ is_error (said self.now) }
    {
        self.tag == NOTHING
    }

    /// Whether the two are one value.
    pub fn is(&self, other: &Term<V>) -> bool
        ensures { result ≡ same V.eq (said self.now) (said other.now) }
    {
        self.tag == other.tag && (self.tag != 0 || self.item == other.item)
    }

    /// The term as a relay passes it on: an error is wrapped once more.
    pub fn wrap(&self) -> Term<V>
        requires { said self.now ≢ Fault 254 }
        ensures { said result ≡ wrapped (said self.now) }
    {
        let tag = match self.tag {
            0 => 0,
            NOTHING => 1,
            tag => tag + 1,
        };
        Term {
            tag,
            item: self.item,
        }
    }

    /// Undoes `wrap`.
    pub fn unwrap(&self) -> Term<V>
        requires { said self.now ≢ Fault 0 }
        ensures { said result ≡ unwrapped (said self.now) }
    {
        let tag = match self.tag {
            0 => 0,
            1 => NOTHING,
            tag => tag - 1,
        };
        Term {
            tag,
            item: self.item,
        }
    }
}
