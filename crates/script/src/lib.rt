//! Scripts: what is done in order, each step by the answers before it, and where a fault cuts them.
//! The crate has
//! definitions and lemmas alone: the contracts of the crates above cite them.
#![tactic(auto)]
