//! Systems that advise: which move comes next on the way to a wanted table.
#![tactic(auto)]

pub mod building;
pub mod errors;
pub mod guided;

pub use guided::Guided;
