//! Finite models: one interface, what stands behind it, and the check that a model can be walked.
#![tactic(auto)]

pub mod check;
pub mod fault;
pub mod interface;
pub mod laws;
mod lesser;
pub mod pair;
pub mod pool;
pub mod table;
