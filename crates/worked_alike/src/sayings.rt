//! What drawn frames say.

ghost use Rattle.std.specs.Prelude.{◌≡◌, ◌≢◌};
ghost use Rattle.omh_paths.specs.declared.wrapped.Wrapped.TheVariants.{Fault};
ghost use Rattle.omh.specs.Written.{IsSmall};

use crate::draws::Draws;
use omh_paths::Wrapped;

/// What a member's frame of a relay round says.
#[derive(Clone, Copy, PartialEq, Eq)]
pub enum Saying {
    /// No frame comes.
    Nothing,
    /// What was heard of each commander itself, wrapped by each relay.
    Expected,
    /// What the node itself passes on.
    Echo,
    /// What is expected, but for some values.
    Odd,
}

impl Saying {
    /// A drawn one.
    pub fn drawn(draws: &mut Draws) -> Saying {
        match draws.next() % 8 {
            0 => Saying::Nothing,
            1 | 2 | 3 => Saying::Expected,
            4 | 5 => Saying::Echo,
            _ => Saying::Odd,
        }
    }
}

/// A drawn item of which members tell: few, so that they meet and clash.
pub fn any_item(draws: &mut Draws) -> u8 {
    (draws.next() % 3) as u8
}

/// A drawn item, or none.
pub fn any_told(draws: &mut Draws) -> Option<u8> {
    if draws.is_one_of_sixteen(4) {
        None
    } else {
        Some(any_item(draws))
    }
}

/// Any value as it stands in the frames of a round of so many relays, or of one where it's none.
pub fn any_relay(draws: &mut Draws, relays: u8) -> Wrapped<u8> {
    if draws.is_one_of_sixteen(4) {
        Wrapped::Fault(1 + (draws.next() % relays.max(1) as u16) as u8)
    } else {
        Wrapped::Plain(any_item(draws))
    }
}

/// A value as it stands in a frame: an error was wrapped once to three times.
pub fn as_relayed(value: Wrapped<u8>) -> Wrapped<u8>
    ensures small { IsSmall 3 result }
    ensures known { result ≢ Fault 255 }
{
    match value {
        Wrapped::Plain(item) => Wrapped::Plain(item),
        Wrapped::Fault(count) => Wrapped::Fault(count.max(1).min(3)),
    }
}

/// What was heard of an item that was told, or of none.
pub fn heard(told: Option<u8>) -> Wrapped<u8>
    ensures { result ≢ Fault 255 }
{
    match told {
        Some(item) => Wrapped::Plain(item),
        None => Wrapped::Fault(0),
    }
}

/// A value that one more relay passed on.
pub fn passed_on(value: Wrapped<u8>) -> Wrapped<u8> {
    match value {
        Wrapped::Plain(item) => Wrapped::Plain(item),
        Wrapped::Fault(count) => Wrapped::Fault(count.saturating_add(1)),
    }
}

/// What was heard, of what is passed on of it.
pub fn taken_back(value: Wrapped<u8>) -> Wrapped<u8>
    ensures { result ≢ Fault 255 }
{
    match value {
        Wrapped::Plain(item) => Wrapped::Plain(item),
        Wrapped::Fault(count) => Wrapped::Fault(count.saturating_sub(1)),
    }
}
