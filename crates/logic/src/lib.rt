//! The logic: endless walks, truth values, satisfaction sets, and the proof that they agree. The definitions are in
//! `specs/`; the functions here carry the theorems.
#![tactic(auto)]

pub mod theorems;
pub mod trials;
