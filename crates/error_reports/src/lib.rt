//! Rows of accusations: how a node makes its own, and what the settled rows of all members charge a
//! node with.
//!
//! An error kind is a bit of a mask; `node_grid::kind` names the kinds. A node is charged with a
//! kind where more than half of the rows that count accuse it of this kind: diagnosis from agreed
//! local reports, in the manner of Walter, Lincoln and Suri (1997) and of Kieckhafer et al. (1988).
//! Nothing here takes memory or refuses anything.
#![tactic(auto)]

mod charge;
mod charge_all;
mod row_builder;

pub use charge::charged;
pub use charge_all::charged_all;
pub use row_builder::RowBuilder;
