//! A node that is told one event after another, by lines of text, and answers with text.
#![tactic(auto)]

mod correcting;
mod event;
mod event_node;
mod live;
mod text;
mod words;

pub use live::{Live, Refusal};
