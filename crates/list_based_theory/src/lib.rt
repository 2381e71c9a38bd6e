//! What the list-based system means, with the proofs of its laws, of its definition and of what it reaches.
//!
//! No code: the crate `list_based` keeps what is defined here, and its contracts name it.
#![tactic(auto)]
