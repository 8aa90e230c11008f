//! The scales of the tour.
use scale::digits::digits;
use scale::scales::{Boolean, FiveValued, Scale};
use std::io;

pub(crate) fn both(rt: &HostRuntime) -> io::Result<()> {
    println!(rt; "The Boolean scale:")?;
    whole(rt, &Boolean)?;
    println!(rt; "The five-valued scale:")?;
    whole(rt, &FiveValued)
}

/// The levels with their readings, and the degrees in writing.
fn whole<S: Scale>(rt: &HostRuntime, scale: &S) -> io::Result<()> {
    let levels = scale.levels();
    for level in 1..=levels {
        if let Some(reading) = scale.reading(level) {
            println!(rt; "  level {level} reads {reading}")?;
        }
    }
    print!(rt; "  degrees:")?;
    for text in (0..=levels).filter_map(|degree| digits(levels, degree)) {
        print!(rt; " {text}")?;
    }
    println!(rt; "")
}
