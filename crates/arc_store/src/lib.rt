//! The arcs of one sentence: one store that every transition system draws its arcs in.
#![tactic(auto)]

pub mod store;

pub use store::ArcStore;
