//! The sheet: rows of formulas over a model and a scale, and their degrees.
#![tactic(auto)]

pub mod fault;
pub mod kinds;
pub mod row;
pub mod sheet;
