//! Requests to a workbench, one after the other, and what holds after each of them.
#![tactic(auto)]

pub mod kinds;

pub use kinds::{GuidedRequest, Reply, Request};
