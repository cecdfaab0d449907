//! Laws of the grammar, over its definitions alone. Each function's promise is its law.

ghost use Rattle.frames.specs.SlotKinds.{SlotLaw};
ghost use Rattle.frames.specs.Laws.{ReadsExactly, IsSpeltOnce, ReadsBack, ReadsInRange, HasNoFront};
ghost use Rattle.frames.specs.Laws.{HasNoPrefix, ReadsCold, IsShort};

/// Reading gives a content exactly where the bytes are a frame that says it.
pub fn reads_exactly()
    ensures { ReadsExactly }
{}

/// The bytes of a frame are the one spelling of what it says, and each spelling in range is a
/// frame.
pub fn spelt_once()
    ensures { IsSpeltOnce }
{}

/// What is sent in range reads as itself.
pub fn reads_back()
    ensures { ReadsBack }
{}

/// What is read is in range.
pub fn reads_in_range()
    ensures { ReadsInRange }
{}

/// No proper front of a frame is a frame, whatever a receiver expects.
pub fn has_no_front()
    ensures { HasNoFront }
{}

/// No frame is a proper front of another.
pub fn has_no_prefix()
    ensures { HasNoPrefix }
{}

/// A Cold frame reads as Cold, whatever else a receiver expects of its sender in the slot.
pub fn reads_cold()
    ensures { ReadsCold }
{}

/// Where the sizes are those for which types are laid out, what is sent is short enough for the
/// length field.
pub fn is_short()
    ensures { IsShort }
{}

/// The kind that has its place in a slot, and the relay round of a slot, are those of what the slot
/// is.
pub fn slots()
    ensures { SlotLaw }
{}
