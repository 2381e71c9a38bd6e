//! The text of whole run sheets, replay on the model of a workbench, and that a written sheet reads back.
#![tactic(auto)]

pub mod faults;

pub use faults::SheetFault;
