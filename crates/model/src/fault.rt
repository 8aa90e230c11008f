//! Why a model is refused.
ghost use Rattle.std.specs.Prelude.{◌≡◌, Some};
ghost use Rattle.model.specs.Faults.{told, worded};

use std::fmt;

/// Why a model cannot be walked.
#[derive(Clone, Copy, PartialEq, Eq, Debug)]
pub enum ModelFault {
    /// The model has no states.
    NoStates,
    /// This state, the lowest such, has no step.
    DeadEnd(u16),
}

impl ModelFault {
    // `number` and `value` tell two things of a fault: each is one match, and both in one would be no clearer.
    /// The fault's number.
    pub fn number(self) -> u8
        ensures { result ≡ (told self).number }
    {
        match self {
            ModelFault::NoStates => 1,
            ModelFault::DeadEnd(_) => 2,
        }
    }

    // 0 and no `None`: a listing prints it so.
    /// The state that the fault names, else 0.
    pub fn value(self) -> u16
        ensures { result ≡ (told self).value }
    {
        match self {
            ModelFault::NoStates => 0,
            ModelFault::DeadEnd(s) => s,
        }
    }
}

impl fmt::Display for ModelFault {
    ghost output = { λ e. Some (worded e) };

    fn fmt<W: fmt::Write>(&self, f: &mut fmt::Formatter<W>) -> fmt::Result {
        match self {
            ModelFault::NoStates => f.write_str("it has no states"),
            ModelFault::DeadEnd(s) => write!(f, "state {s} has no step"),
        }
    }
}
