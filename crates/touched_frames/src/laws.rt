//! The law of the parts of a frame, over the definitions alone.

ghost use Rattle.touched_frames.specs.Arrived.{PartsLaw};

/// Parts law: what a receiver has of a part of a frame is that part of what it has of the frame.
pub fn parts<C>()
    ensures { PartsLaw C }
{}
