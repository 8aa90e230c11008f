//! The round in which each state joins a growing set.
ghost use Rattle.std.specs.Prelude.{◌≡◌, suc, replicate};
ghost use Rattle.engine.specs.Marks.{round_of, before};

use crate::per_state::PerState;

/// The round of a state that never joins.
// Not an `Option`: `NEVER` is above every round, `None` would be below.
pub const NEVER: u16 = u16::MAX;

/// For each state the round in which it joined, or that it never did.
pub type Rounds = PerState<u16>;

impl Rounds {
    /// Every state in this round.
    pub fn of(round: u16) -> Rounds
        ensures { result.at ≡ replicate 4096 round }
    {
        PerState::everywhere(round)
    }

    /// The round in which the state joined, 0 for a number that no state can have.
    pub(crate) fn round(&self, s: u16) -> u16
        ensures { result ≡ round_of self.now s }
    {
        self.at_or(s, 0)
    }

    /// Did the state join in round `n`, or before?
    pub(crate) fn joined(&self, s: u16, n: u16) -> bool
        ensures { result ≡ before self.now (suc n) s }
    {
        self.round(s) <= n
    }
}
