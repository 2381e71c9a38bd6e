//! The worked examples, run on the three systems and on layers over them, and run sheets written and replayed.
#![tactic(auto)]

#[cfg(test)]
mod moves;
#[cfg(test)]
mod run_sheets;
#[cfg(test)]
mod tables;
#[cfg(test)]
mod under_layers;
