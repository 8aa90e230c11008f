//! Nested fixed points of H, where some states alone may be passed.
ghost use Rattle.std.specs.Prelude.{◌≡◌, suc, replicate};
ghost use Rattle.engine.specs.Marks.{before};
ghost use Rattle.engine.specs.Passing.{Returning, remained};
ghost use Rattle.engine.specs.Rounded.{Applied, Joins, Round, step_f};

use crate::greatest::greatest_into;
use crate::least::{fill, join, least};
use crate::rounds::{NEVER, Rounds};
use crate::sets::StateSet;
use crate::steps::in_f;
use model::interface::Model;

/// Marks in `base` the states of F of S1, S2 and the states that joined. Did a mark change?
fn apply<M: Model>(
    model: &M,
    some: bool,
    s1: &StateSet,
    s2: &StateSet,
    joined: &Rounds,
    base: &mut StateSet,
) -> bool
    ensures { Applied (M.meaning model.now).states (step_f (M.meaning model.now) some s1.now s2.now (before joined.now (suc (M.meaning model.now).states))) base.old base.new result }
{
    let n = model.states();
    base.renew(model, |s| in_f(model, some, s, s1, s2, joined, n + 1))
}

// Not a `Task`, which owns its sets: `recurring` and `settling` would copy theirs into it.
/// As `returning`, into rounds in which all states have joined.
pub(crate) fn returning_into<M: Model>(
    model: &M,
    some: bool,
    right: &StateSet,
    pass: &StateSet,
    left: &StateSet,
    joined: &mut Rounds,
)
    requires joined { joined.old.at ≡ replicate 4096 0 }
    ensures { Returning (M.meaning model.now) some right.now pass.now left.now joined.new }
{
    let mut base = StateSet::of(true);
    // Not by `fill`: a round makes `base`, then `joined`, and may end between the two.
    for _ in 0..model.states() + 2 {
        if !apply(model, some, right, left, joined, &mut base) {
            return;
        }
        *joined = least(model, some, &base, pass);
    }
}

/// The states from which some walk, or every walk, keeps to `pass` or `left` until `right` is seen, and has `left`, or
/// has seen `right`, again and again, by the last inner rounds.
pub fn returning<M: Model>(
    model: &M,
    some: bool,
    right: &StateSet,
    pass: &StateSet,
    left: &StateSet,
) -> Rounds
    ensures { Returning (M.meaning model.now) some right.now pass.now left.now result }
{
    let mut joined = Rounds::of(0);
    returning_into(model, some, right, pass, left, &mut joined);
    joined
}

/// Outer round `k` of `remaining`. Did a state join?
fn settle<M: Model>(
    model: &M,
    some: bool,
    right: &StateSet,
    pass: &StateSet,
    left: &StateSet,
    k: u16,
    joined: &mut Rounds,
) -> bool
    ensures { Round (M.meaning model.now).states (remained (M.meaning model.now) some right.now pass.now left.now) k joined.old joined.new result }
{
    // Not a closure in `remaining_into`: tried, the proof of these calls did not close there.
    let base = StateSet::such_that(model, |s| in_f(model, some, s, right, pass, joined, k));
    let mut gone = Rounds::of(NEVER);
    greatest_into(model, some, &base, left, &mut gone);
    let n = model.states();
    join(model, k, joined, |s, _| !gone.joined(s, n))
}

/// As `remaining`, into rounds in which no state has joined yet.
pub(crate) fn remaining_into<M: Model>(
    model: &M,
    some: bool,
    right: &StateSet,
    pass: &StateSet,
    left: &StateSet,
    joined: &mut Rounds,
)
    requires joined { joined.old.at ≡ replicate 4096 65535 }
    ensures { Joins (M.meaning model.now).states (remained (M.meaning model.now) some right.now pass.now left.now) joined.new (suc (M.meaning model.now).states) }
{
    fill(
        model,
        joined,
        |k, joined| settle(model, some, right, pass, left, k, joined),
    );
}

/// The states from which some walk, or every walk, keeps so, and has `left`, or has seen `right`, from some position
/// on, by the outer round in which each joins.
pub fn remaining<M: Model>(
    model: &M,
    some: bool,
    right: &StateSet,
    pass: &StateSet,
    left: &StateSet,
) -> Rounds
    ensures { Joins (M.meaning model.now).states (remained (M.meaning model.now) some right.now pass.now left.now) result (suc (M.meaning model.now).states) }
{
    let mut joined = Rounds::of(NEVER);
    remaining_into(model, some, right, pass, left, &mut joined);
    joined
}
