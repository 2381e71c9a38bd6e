//! The moves standing: a list of moves with room for as many as any sentence takes.
#![tactic(auto)]

pub mod history;
pub mod iter;
mod packing;

pub use history::{History, HistoryFull};
pub use iter::Moves;
