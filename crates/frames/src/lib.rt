//! Frames between nodes: one grammar, read and written.
//!
//! A frame is a header of 14 bytes and a body. All numbers are big-endian. Nothing here takes
//! memory.
#![tactic(auto)]

mod bound;
mod cells;
mod decoding;
mod encoding;
mod frame;
mod kind;
mod known;
pub mod laws;
mod pieces;
mod values;

pub use bound::frame_bound;
pub use cells::{Cells, put_done, put_row};
pub use decoding::decode;
pub use encoding::{HEADER, encode, header, is_header};
pub use frame::{Body, Expect, Frame, Head, StateBody};
pub use known::decode_known;
pub use pieces::write_at;
pub use values::{Values, put_value};
