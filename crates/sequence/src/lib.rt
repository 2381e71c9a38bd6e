//! Serves any list of requests on a workbench, and says what holds after each of them.
#![tactic(auto)]

pub mod asking;
mod attending;
mod guided;
mod pouches;
pub mod serving;

pub use asking::Ask;
pub use serving::{run, serve};
