//! The interface that every scale stands behind, and two scales.
ghost use Rattle.std.specs.Prelude.{◌≡◌};
ghost use Rattle.scale.specs.Grades.{Grades, Lawful, reading_at, boolean, five_valued};
ghost use Rattle.scale.specs.Lawfulness.{boolean_lawful, five_lawful};

use crate::reading::Reading;

/// A scale of 1 to 4 levels, each with a reading. All that it is lies in its grades.
pub trait Scale {
    ghost grades: { Self → Grades };

    /// The laws of the grades, for code that is generic over the scale.
    ghost lawful: { (x : Self) → Lawful (grades x) };

    /// How many levels?
    fn levels(&self) -> u8
        ensures { result ≡ (grades self.now).levels };

    /// How is this level read?
    fn reading(&self, level: u8) -> Option<Reading>
        ensures { result ≡ (grades self.now).reading level };
}

const BOOLEAN: [Reading; 1] = [Reading::Always];

const FIVE_VALUED: [Reading; 4] = [
    Reading::Sometime,
    Reading::InfinitelyOften,
    Reading::EventuallyAlways,
    Reading::Always,
];

/// The reading of a level in a list of the readings of levels 1, 2 and so on.
fn reading_at(readings: &[Reading], level: u8) -> Option<Reading>
    ensures { result ≡ reading_at readings.now level }
{
    let index = usize::from(level).checked_sub(1)?;
    readings.get(index).copied()
}

/// One level, read *always*.
#[derive(Clone, Copy, PartialEq, Eq, Debug)]
pub struct Boolean;

impl Scale for Boolean {
    ghost grades = { λ _. boolean };

    ghost lawful = { λ _. boolean_lawful };

    fn levels(&self) -> u8 {
        // By `as`: the length fits, and `try_from` would have an error that cannot come.
        BOOLEAN.len() as u8
    }

    // `FiveValued` has the same with its own list: the two scales are two types, and `reading_at` is what they share.
    fn reading(&self, level: u8) -> Option<Reading> {
        reading_at(&BOOLEAN, level)
    }
}

// Two unit types, not one with a list: a list from a caller need not be a lawful scale.

/// Four levels: *sometime*, *infinitely often*, *eventually always*, *always*.
#[derive(Clone, Copy, PartialEq, Eq, Debug)]
pub struct FiveValued;

impl Scale for FiveValued {
    ghost grades = { λ _. five_valued };

    ghost lawful = { λ _. five_lawful };

    fn levels(&self) -> u8 {
        // By `as`, as above.
        FIVE_VALUED.len() as u8
    }

    fn reading(&self, level: u8) -> Option<Reading> {
        reading_at(&FIVE_VALUED, level)
    }
}
