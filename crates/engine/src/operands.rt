//! The operands of a row at one level.
ghost use Rattle.engine.specs.Marks.{members};
ghost use Rattle.engine.specs.Rounded.{Holds};
ghost use Rattle.logic.specs.Searches.{neither};
ghost use Rattle.logic.specs.Sets.{union};

use crate::sets::StateSet;
use model::interface::Model;

/// The states where the left operand of a row reaches a level, and those where the right one does.
#[derive(Clone, Copy)]
pub struct Operands<'a> {
    pub left: &'a StateSet,
    pub right: &'a StateSet,
}

impl Operands<'_> {
    // Not one function with `neither`: one that took the rule would be `such_that` again.
    /// The states of either set.
    pub(crate) fn either<M: Model>(self, model: &M) -> StateSet
        ensures { Holds (M.meaning model.now).states (union (members self.entry.right.now) (members self.entry.left.now)) result }
    {
        StateSet::such_that(model, |s| self.right.has(s) || self.left.has(s))
    }

    /// The states of neither set.
    pub(crate) fn neither<M: Model>(self, model: &M) -> StateSet
        ensures { Holds (M.meaning model.now).states (neither (members self.entry.left.now) (members self.entry.right.now)) result }
    {
        StateSet::such_that(model, |s| !self.right.has(s) && !self.left.has(s))
    }
}
