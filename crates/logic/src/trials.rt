//! A table of trials: truth values worked out by hand, and proved.
ghost use Rattle.std.specs.Prelude.{◌≡◌};
ghost use Rattle.logic.specs.Trials.{table, TableTrue, BrokenAtFour, UnbrokenAtThree};

/// A trial's number, a state, and the truth value of the trial's formula there.
#[derive(Clone, Copy, PartialEq, Eq, Debug)]
pub struct Entry {
    // A number, as the theorem over the table has it.
    pub trial: u8,
    pub state: u16,
    pub degree: u8,
}

// One line for each entry, so that the array reads as a table.
#[rattlefmt::skip]
const TABLE: [Entry; 28] = [
    Entry { trial: 0, state: 0, degree: 3 },
    Entry { trial: 0, state: 1, degree: 3 },
    Entry { trial: 0, state: 2, degree: 4 },
    Entry { trial: 1, state: 0, degree: 4 },
    Entry { trial: 1, state: 1, degree: 3 },
    Entry { trial: 1, state: 2, degree: 4 },
    Entry { trial: 2, state: 0, degree: 2 },
    Entry { trial: 2, state: 1, degree: 2 },
    Entry { trial: 3, state: 0, degree: 4 },
    Entry { trial: 3, state: 1, degree: 4 },
    Entry { trial: 4, state: 0, degree: 2 },
    Entry { trial: 4, state: 1, degree: 2 },
    Entry { trial: 5, state: 0, degree: 0 },
    Entry { trial: 5, state: 1, degree: 4 },
    Entry { trial: 6, state: 0, degree: 1 },
    Entry { trial: 6, state: 1, degree: 1 },
    Entry { trial: 7, state: 0, degree: 2 },
    Entry { trial: 7, state: 1, degree: 2 },
    Entry { trial: 7, state: 2, degree: 2 },
    Entry { trial: 7, state: 3, degree: 2 },
    Entry { trial: 8, state: 0, degree: 4 },
    Entry { trial: 8, state: 1, degree: 4 },
    Entry { trial: 8, state: 2, degree: 4 },
    Entry { trial: 8, state: 3, degree: 3 },
    Entry { trial: 9, state: 0, degree: 1 },
    Entry { trial: 9, state: 3, degree: 0 },
    Entry { trial: 10, state: 0, degree: 1 },
    Entry { trial: 10, state: 1, degree: 0 },
];

/// The table. What its entries say is so of the truth values that the endless walks give.
pub fn trials() -> &'static [Entry]
    ensures value { result.now ≡ table }
    ensures true_of_walks { TableTrue }
    ensures broken { BrokenAtFour }
    ensures unbroken { UnbrokenAtThree }
{
    &TABLE
}
