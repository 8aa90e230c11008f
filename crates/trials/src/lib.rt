//! Tests: what models, scales, the engine and the sheet answer at the edges and on examples worked out by hand.
#![tactic(auto)]

#[cfg(test)]
mod engines;
#[cfg(test)]
mod models;
#[cfg(test)]
mod replays;
#[cfg(test)]
mod scales;
#[cfg(test)]
mod sheets;
#[cfg(test)]
mod tables;
#[cfg(test)]
mod walks;
