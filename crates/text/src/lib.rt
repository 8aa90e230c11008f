//! The text form: a scale, a model, and formulas asked of its states.
#![tactic(auto)]

pub mod fault;
pub mod read;
mod reader;
pub mod script;
