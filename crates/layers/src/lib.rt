//! Layers: a rule over any system or layer, which then permits fewer arcs and is a system again.
#![tactic(auto)]

pub mod label_set;
pub mod layer;
pub mod one_root;
pub mod rules;

pub use label_set::LabelSet;
pub use layer::Layer;
pub use one_root::OneRoot;
pub use rules::Rule;
