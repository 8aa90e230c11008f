//! How a level is read along an endless walk.
ghost use Rattle.std.specs.Prelude.{◌≡◌, Some};
ghost use Rattle.scale.specs.Readings.{named};

use std::fmt;

/// How often the positions of an endless walk must be good for the walk to meet a level, weakest first.
#[derive(Clone, Copy, PartialEq, Eq, Debug)]
pub enum Reading {
    /// At some position.
    Sometime,
    /// After every position there is a good one.
    InfinitelyOften,
    /// From some position on at all.
    EventuallyAlways,
    /// At all positions.
    Always,
}

impl Reading {
    /// The reading in words.
    pub fn name(self) -> &'static str
        ensures { result.now ≡ named self }
    {
        match self {
            Reading::Sometime => "sometime",
            Reading::InfinitelyOften => "infinitely often",
            Reading::EventuallyAlways => "eventually always",
            Reading::Always => "always",
        }
    }
}

impl fmt::Display for Reading {
    ghost output = { λ r. Some (named r) };

    fn fmt<W: fmt::Write>(&self, f: &mut fmt::Formatter<W>) -> fmt::Result {
        f.write_str(self.name())
    }
}
