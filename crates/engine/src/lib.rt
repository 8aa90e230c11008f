//! Fixed points over any model, on sets on the stack.
#![tactic(auto)]

// `model`, `some`, a round and the sets of a fixed point go to each function one by one: `greatest` turns `some`, and F
// and H are taken at sets and rounds that differ from call to call, so a value that held them would be made anew for
// each. So do operator, reading and operands: the operator is asked first, and what it leads to wants some of the others.

pub mod greatest;
pub mod least;
pub mod nested;
pub mod operands;
pub mod operator;
pub mod passing;
pub mod per_state;
pub mod rounds;
pub mod satisfy;
pub mod search;
pub mod sets;
pub mod steps;
mod successors;
pub mod tasks;
pub mod walks;
