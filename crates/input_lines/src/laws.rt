//! What holds of the lines of bytes, over the definitions alone.
ghost use Rattle.input_lines.specs.Laws.{SplitLaw, FrontLaw};

/// The lines, each with its line feed, and the rest are the bytes. There is no other way to split
/// them so.
pub fn split()
    ensures { SplitLaw }
{}

/// A front of the bytes has a front of the lines; the others are those of its rest and what comes.
pub fn front()
    ensures { FrontLaw }
{}
