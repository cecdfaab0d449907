//! What a node notes of the other nodes, on its row under construction.
//!
//! A frame that was found Good in a slot is one of the slot's, so findings alone tell what there is
//! against the frames of a slot: nothing is read again. Nothing here takes memory or refuses
//! anything.
#![tactic(auto)]

mod findings;
mod states;
mod verdicts;

pub use findings::{carry_found, good_senders, note_found, note_values};
pub use states::note_states;
pub use verdicts::note_verdicts;
