//! Nested fixed points of G: those of H where all states may be passed.
ghost use Rattle.std.specs.Prelude.{suc};
ghost use Rattle.engine.specs.Rounded.{Joins, Recurring, settled};

use crate::passing::{remaining_into, returning_into};
use crate::rounds::{NEVER, Rounds};
use crate::sets::StateSet;
use model::interface::Model;

// Not one function with `settling`: each is one call, and the rounds that they answer do not mean the same.
/// The states from which some walk, or every walk, is good infinitely often, by the last inner rounds.
pub fn recurring<M: Model>(model: &M, some: bool, right: &StateSet, left: &StateSet) -> Rounds
    ensures { Recurring (M.meaning model.now) some right.now left.now result }
{
    let all = StateSet::of(true);
    let mut joined = Rounds::of(0);
    returning_into(model, some, right, &all, left, &mut joined);
    joined
}

/// The states from which some walk, or every walk, is good from some position on, by the outer round in which each
/// joins.
pub fn settling<M: Model>(model: &M, some: bool, right: &StateSet, left: &StateSet) -> Rounds
    ensures { Joins (M.meaning model.now).states (settled (M.meaning model.now) some right.now left.now) result (suc (M.meaning model.now).states) }
{
    let all = StateSet::of(true);
    let mut joined = Rounds::of(NEVER);
    remaining_into(model, some, right, &all, left, &mut joined);
    joined
}
