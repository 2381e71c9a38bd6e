//! The model of a workbench: a plain machine that says what each call answers and leaves, and what holds of it
//! whatever calls it served.
#![tactic(auto)]

pub mod answers;

pub use answers::Answer;
