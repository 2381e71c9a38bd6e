//! What a rule is, what a system under a rule means, and what follows for every rule and every system. No code.
#![tactic(auto)]
