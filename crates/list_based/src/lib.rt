//! The list-based system: Shift, Left-Arc, Right-Arc and No-Arc over two lists and a buffer.
#![tactic(auto)]

pub mod building;
pub mod system;

pub use system::ListBased;
