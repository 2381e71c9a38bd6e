//! Sealed sentences, the run sheets that they write, and replay of a sheet on a workbench.
#![tactic(auto)]

pub mod replaying;
pub mod sealed;

pub use replaying::replay;
pub use sealed::Sealed;
pub use sealed::calls::seal;
