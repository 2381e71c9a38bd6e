//! The workbench: one sentence being annotated over a transition system, with its moves, undo, a checkpoint and derive.
#![tactic(auto)]

pub mod workbench;

pub use workbench::{Ticket, Workbench};
