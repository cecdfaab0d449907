//! Bytes that a line puts in place of a frame's own.

ghost use Rattle.std.specs.Prelude.{◌≡◌, ℕ, ◌+◌, ◌*◌, ◌^◌, ◌<◌, ◌≤◌, ◌⊎◌, true, List, length};
ghost use Rattle.frames.specs.PieceLaws.{AreBytes};
ghost use Rattle.fault_classes.specs.Change.{change_of};
ghost use Rattle.fault_link.specs.Arrival.{patched};
ghost use Rattle.touched_frames.specs.Arrived.{replaced};
ghost use Rattle.touched_items.specs.Overlaid.{overlaid, IsClear};

use fault_classes::Effect;
use frames::HEADER;

/// Bytes that take the place of a frame's own, from an offset on, as far as they fall within it.
#[derive(Clone, Copy)]
pub(crate) struct Patch<'a> {
    at: u16,
    bytes: &'a [u8],
    ghost small: { AreBytes bytes.now },
}

impl<'a> Patch<'a> {
    /// These bytes, from this offset on.
    fn at(at: u16, bytes: &'a [u8]) -> Patch<'a>
        ensures offset { result.at ≡ at }
        ensures bytes { result.bytes.now ≡ bytes.now }
    {
        Patch { at, bytes }
    }

    /// The bytes that an effect puts into the frame: none but of one that replaces some.
    pub(crate) fn of(effect: &'a Effect) -> Patch<'a>
        ensures { (frame : List ℕ) →
            patched result.at result.bytes.now frame ≡ replaced (change_of effect.now) frame }
    {
        if let Effect::Set { at, bytes } = effect {
            return Patch::at(*at, bytes.as_slice());
        }
        Patch::at(0, &[])
    }

    /// Puts them into a part of the frame that begins at place `from`.
    pub(crate) fn put_over(&self, part: &mut [u8], from: usize)
        requires { from < 2 ^ 32 }
        ensures { part.new ≡ overlaid self.now.at self.now.bytes.now from part.old }
    {
        let at = self.at as usize;
        let start = at.max(from);
        let end = (from + part.len()).min(at + self.bytes.len());
        for place in start..end {
            part[place - from] = self.bytes[place - at];
        }
    }

    /// Whether they leave alone all of so many bytes from place `from` on.
    pub(crate) fn is_clear_of(&self, from: usize, width: usize) -> bool
        requires from { from < 2 ^ 32 }
        requires width { width < 2 ^ 32 }
        ensures { result ≡ true → IsClear self.now.at (length self.now.bytes.now) from width }
    {
        let at = self.at as usize;
        self.bytes.is_empty() || from + width <= at || at + self.bytes.len() <= from
    }

    /// Of `count` entries of so many bytes behind the header, the first that they may hit, and the
    /// first behind all that they may hit.
    pub(crate) fn hit_entries(&self, width: usize, count: usize) -> (usize, usize)
        requires width { 0 < width }
        requires narrow { width ≤ 33 }
        ensures within { result.1 ≤ count }
        ensures clear { (k : ℕ) → k < count → (k < result.0) ⊎ (result.1 ≤ k) →
            IsClear self.now.at (length self.now.bytes.now) (14 + width * k) width }
    {
        let begin = (self.at as usize).max(HEADER) - HEADER;
        let end = (self.at as usize + self.bytes.len()).saturating_sub(HEADER);
        if begin < end {
            (begin / width, count.min((end - 1) / width + 1))
        } else {
            (0, 0)
        }
    }
}
