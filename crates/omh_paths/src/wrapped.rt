ghost use Rattle.std.specs.Prelude.{◌≡◌, ◌≢◌};
ghost use Rattle.omh_paths.specs.Wrapped.{wrapped, unwrapped, is_error, same};
ghost use Rattle.omh_paths.specs.declared.wrapped.Wrapped.TheVariants.{Fault};

/// A value in transit: the value itself, or an error with the number of relays that it went
/// through.
///
/// After the idea of wrapped error values of Lincoln and Rushby (1993); this coding of them is this
/// project's own.
#[derive(Clone, Copy, PartialEq, Eq, Drop)]
pub enum Wrapped<V> {
    /// The value as it was sent.
    Plain(V),
    /// An error that was wrapped so many times. `Fault(0)` is the error itself: nothing good was
    /// heard.
    Fault(u8),
}

impl<V: Copy + Eq> Wrapped<V> {
    /// The value as a relay passes it on: an error is wrapped once more.
    pub fn wrap(self) -> Wrapped<V>
        requires { self ≢ Fault 255 }
        ensures { result ≡ wrapped self }
    {
        match self {
            Wrapped::Plain(v) => Wrapped::Plain(v),
            Wrapped::Fault(k) => Wrapped::Fault(k + 1),
        }
    }

    /// Undoes `wrap`.
    pub fn unwrap(self) -> Wrapped<V>
        requires { self ≢ Fault 0 }
        ensures { result ≡ unwrapped self }
    {
        match self {
            Wrapped::Plain(v) => Wrapped::Plain(v),
            Wrapped::Fault(k) => Wrapped::Fault(k - 1),
        }
    }
}
