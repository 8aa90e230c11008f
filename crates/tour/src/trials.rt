//! The table of trials: degrees worked out by hand, and proved to be what the endless walks give.
use logic::trials::trials;
use scale::digits::digits;
use std::io;

/// What each trial asks, and how many levels its scale has; a trial's number is its place here.
const TRIALS: [(&str, u8); 11] = [
    ("three states, AG p0", 4),
    ("three states, EG p0", 4),
    ("two states, AG p0", 4),
    ("two states, not AG p0", 4),
    ("two states, p0 AW AG p0", 4),
    ("two states, AG p0 imp EX p0", 4),
    ("two states, AG p0 imp EX p0, Boolean", 1),
    ("pool of 1, no torn frame", 4),
    ("pool of 1 with a guard, no torn frame", 4),
    ("pool of 2, no torn frame", 4),
    ("one-state loop beside two states, AG p0", 4),
];

/// Each trial with its degrees by state.
pub(crate) fn all(rt: &HostRuntime) -> io::Result<()> {
    println!(rt; "Degrees worked out by hand, and proved:")?;
    for (trial, (text, levels)) in TRIALS.iter().enumerate() {
        print!(rt; "  {text}:")?;
        degrees(rt, trial, *levels)?;
    }
    Ok(())
}

/// The degrees of a trial, each after its state.
fn degrees(rt: &HostRuntime, trial: usize, levels: u8) -> io::Result<()> {
    for entry in trials() {
        if usize::from(entry.trial) == trial
            && let Some(degree) = digits(levels, entry.degree)
        {
            print!(rt; " {}={degree}", entry.state)?;
        }
    }
    println!(rt; "")
}
