//! Arc-eager: Shift, Left-Arc, Right-Arc and Reduce over a stack and a buffer.
#![tactic(auto)]

pub mod building;
pub mod system;

pub use system::ArcEager;
