//! Tests: the listings of texts, worked out by hand, at every limit and at the places of faults.
#![tactic(auto)]

#[cfg(test)]
mod asks;
#[cfg(test)]
mod bytes;
#[cfg(test)]
mod calls;
#[cfg(test)]
mod degrees;
#[cfg(test)]
mod forms;
#[cfg(test)]
mod limits;
#[cfg(test)]
mod ranges;
