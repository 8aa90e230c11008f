//! Scales: how many levels there are, how each is read, and how a degree is written.
#![tactic(auto)]

pub mod digits;
pub mod reading;
pub mod scales;
