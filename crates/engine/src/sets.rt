//! Sets of states.
ghost use Rattle.std.specs.Prelude.{◌≡◌, ℕ, ◌<◌, false, replicate, slice_set};
ghost use Rattle.engine.specs.Marks.{members};
ghost use Rattle.engine.specs.Rounded.{Holds};
ghost use Rattle.logic.specs.Sets.{complement};

use crate::per_state::PerState;
use model::interface::Model;

/// A set of states, of which a model has at most 4,096.
pub type StateSet = PerState<bool>;

impl StateSet {
    // Beside `Rounds::of`: each says what its value means; the body that they share is `everywhere`.
    /// The set of no state, or of all.
    pub fn of(all: bool) -> StateSet
        ensures { result.at ≡ replicate 4096 all }
    {
        PerState::everywhere(all)
    }

    /// The states of the model that have what the rule asks.
    pub(crate) fn such_that<M: Model, F: Fn(u16) -> bool>(model: &M, rule: F) -> StateSet
        requires { (s : ℕ) → s < (M.meaning model.now).states → s < 4096 → F.pre rule s }
        ensures { (s : ℕ) → s < (M.meaning model.now).states → F.post rule s (members result s) }
    {
        StateSet::by(model.states(), false, rule)
    }

    // In place, and no set made by `such_that`: a second set would have to be cleared, compared and copied.
    /// Marks the states of the model anew, by what the rule asks. Did a mark change?
    pub(crate) fn renew<M: Model, F: Fn(u16) -> bool>(&mut self, model: &M, rule: F) -> bool
        requires { (s : ℕ) → s < (M.meaning model.now).states → s < 4096 → F.pre rule s }
        ensures ruled { (s : ℕ) → s < (M.meaning model.now).states → F.post rule s (members self.new s) }
        ensures still { result ≡ false → Holds (M.meaning model.now).states (members self.old) self.new }
    {
        let mut changed = false;
        for s in 0..model.states() {
            let member = rule(s);
            if self.at[usize::from(s)] != member {
                self.at[usize::from(s)] = member;
                changed = true;
            }
        }
        changed
    }

    /// Is the state in the set?
    pub fn has(&self, s: u16) -> bool
        ensures { result ≡ members self.now s }
    {
        self.at_or(s, false)
    }

    /// The states that the set has not.
    pub(crate) fn outside<M: Model>(&self, model: &M) -> StateSet
        ensures { Holds (M.meaning model.now).states (complement (members self.now)) result }
    {
        StateSet::such_that(model, |s| !self.has(s))
    }

    /// Puts the state into the set, or takes it out. A number that no state can have changes nothing.
    pub fn put(&mut self, s: u16, member: bool)
        ensures { self.new.at ≡ slice_set self.old.at s member }
    {
        let i = usize::from(s);
        // By index: after a write through `get_mut`, a proof knows the array's length and not its elements.
        if i < self.at.len() {
            self.at[i] = member;
        }
    }
}
