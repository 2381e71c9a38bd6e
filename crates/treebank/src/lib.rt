//! What a dependency treebank is made of: moves, arcs, rows and tables, and why a call is refused.
#![tactic(auto)]

pub mod arcs;
pub mod moves;
pub mod refusals;
pub mod rows;
pub mod tables;
pub mod words;

pub use arcs::Arc;
pub use moves::Move;
pub use refusals::Refusal;
pub use rows::Row;
pub use words::WordCount;
