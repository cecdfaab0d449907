ghost use Rattle.std.specs.Prelude.{◌≡◌, IfSome};
ghost use Rattle.omh.specs.Written.{IsSmall};
ghost use Rattle.worked_paths.specs.Lies.{lie, lies};

use crate::draws::Draws;
use omh_paths::{Path, Wrapped};
use settled_paths::Touched;

/// What liars say to each of eight receivers.
#[derive(Clone, Copy)]
pub struct Lies {
    /// How many nodes the longest paths have of which they lie.
    longest: u8,
    /// For each of eight nodes and each receiver a number that stands for what the one says to the
    /// other.
    codes: [u8; 64],
}

/// What a number stands for: nothing is changed, nothing is heard, an error of an error, or a
/// value.
fn lie(code: u8) -> Option<Wrapped<u8>>
    ensures is { result ≡ lie code }
    ensures small { IfSome result (λ v. IsSmall 252 v) }
{
    match code {
        0 => None,
        1 => Some(Wrapped::Fault(0)),
        2 => Some(Wrapped::Fault(1)),
        _ => Some(Wrapped::Plain(code)),
    }
}

impl Lies {
    /// Drawn lies about paths of at most so many nodes: each node says the truth to half of the
    /// others.
    pub fn draw(draws: &mut Draws, longest: u8) -> Lies {
        let mut codes = [0; 64];
        for code in codes.iter_mut() {
            let drawn = draws.next() % 10;
            *code = if drawn < 5 { 0 } else { (drawn - 4) as u8 };
        }
        Lies { longest, codes }
    }
}

impl Touched<u8> for Lies {
    ghost says = { λ s i path. lies s.codes s.longest i path };

    fn said(&self, to: u8, path: &Path) -> Option<Wrapped<u8>> {
        let len = path.len();
        if len > self.longest {
            return None;
        }
        let place = path.at(len - 1) as usize * 8 + to as usize;
        if place >= 64 {
            return None;
        }
        lie(self.codes[place])
    }

    fn is_alike(&self, i: u8, j: u8, len: u8) -> bool {
        i == j || len > self.longest
    }

    fn is_untouched(&self, len: u8) -> bool {
        len > self.longest
    }
}
