//! A tour of the checker, on models small enough to follow by hand. It prints what it makes and what it finds.
#![tactic(auto)]

mod models;
mod runs;
mod scales;
mod sheets;
mod show;
mod trials;

use std::io;

fn main(rt: HostRuntime) -> io::Result<()> {
    models::pools(&rt)?;
    models::tables(&rt)?;
    models::pairs(&rt)?;
    models::refusals(&rt)?;
    scales::both(&rt)?;
    trials::all(&rt)?;
    sheets::tables(&rt)?;
    sheets::pools(&rt)?;
    runs::all(&rt)
}
