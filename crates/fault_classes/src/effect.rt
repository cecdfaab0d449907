/// What a fault line does to each frame that it touches. A frame that no line touches arrives once,
/// at tick 15.
#[derive(Drop)]
pub enum Effect {
    /// Nothing arrives.
    Drop,
    /// The last bytes, so many of them, are missing; nothing remains of a frame that isn't longer.
    Cut(u32),
    /// The frame arrives two times.
    Twice,
    /// The frame arrives at this tick, which lies outside the window of ticks 10 to 20.
    Time(u8),
    /// Bytes of the frame are replaced, from an offset on; its length stays.
    Set {
        /// The offset of the first byte that is replaced.
        at: u16,
        /// The bytes that take the place of the frame's own, as far as they fall within it.
        bytes: Vec<u8>,
    },
    /// These bytes arrive in place of the frame.
    Raw(Vec<u8>),
}
