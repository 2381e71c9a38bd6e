//! Arc-standard: Shift, Left-Arc and Right-Arc over a stack and a buffer.
#![tactic(auto)]

pub mod building;
pub mod system;

pub use system::ArcStandard;
