//! Kinds of frames.

ghost use Rattle.std.specs.Prelude.{ℕ, ◌≡◌, ◌≤◌};
ghost use Rattle.frames.specs.Content.{kind, kind_in};
ghost use Rattle.frames.specs.Seen.{content, number_of};

use crate::frame::Body;
use slot_plan::Slot;

/// The kind of a frame, by its number.
#[derive(Clone, Copy)]
pub(crate) enum Kind {
    State = 1,
    Done0 = 2,
    DoneRelay = 3,
    Data = 4,
    Report0 = 5,
    ReportRelay = 6,
    Cold = 7,
}

impl Kind {
    /// Its number in a header.
    pub(crate) fn number(self) -> u8
        ensures { result ≡ number_of self }
    {
        self as u8
    }

    /// The kind of this number.
    pub(crate) fn numbered(number: u8) -> Kind
        requires first { 1 ≤ number }
        requires last { number ≤ 7 }
        ensures { number_of result ≡ number }
    {
        match number {
            1 => Kind::State,
            2 => Kind::Done0,
            3 => Kind::DoneRelay,
            4 => Kind::Data,
            5 => Kind::Report0,
            6 => Kind::ReportRelay,
            _ => Kind::Cold,
        }
    }

    /// The kind of a body.
    pub(crate) fn of<const N: usize>(body: &Body<N>) -> Kind
        ensures { (nodes : ℕ) → number_of result ≡ kind (content nodes body.now) }
    {
        match body {
            Body::State(_) => Kind::State,
            Body::Done0(_) => Kind::Done0,
            Body::DoneRelay(_) => Kind::DoneRelay,
            Body::Data(_) => Kind::Data,
            Body::Report0(_) => Kind::Report0,
            Body::ReportRelay(_) => Kind::ReportRelay,
            Body::Cold => Kind::Cold,
        }
    }

    /// The kind that has its place in a slot, where there are `m` relay rounds; Cold where there is
    /// no such slot.
    pub(crate) fn in_slot(m: u8, slot: u8) -> Kind
        requires { m ≤ 3 }
        ensures { number_of result ≡ kind_in m slot }
    {
        match Slot::at(m, slot) {
            Some(Slot::Sync) => Kind::State,
            Some(Slot::Claims(0)) => Kind::Done0,
            Some(Slot::Claims(_)) => Kind::DoneRelay,
            Some(Slot::Data) => Kind::Data,
            Some(Slot::Rows(0)) => Kind::Report0,
            Some(Slot::Rows(_)) => Kind::ReportRelay,
            None => Kind::Cold,
        }
    }
}
