//! What a transition system is: its meaning, its laws, and what follows from them for every system.
#![tactic(auto)]

pub mod faults;
pub mod making;
pub mod system;

pub use faults::Fault;
pub use system::System;
