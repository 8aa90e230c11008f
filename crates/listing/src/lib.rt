//! The listing call: a text in, its degrees or its fault out.
#![tactic(auto)]

pub mod answering;
pub mod answers;
mod asking;
pub mod fault;
pub mod listing;
mod place;
mod writing;
