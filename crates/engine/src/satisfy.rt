//! The satisfaction set of a path row at one level.
ghost use Rattle.std.specs.Prelude.{◌≡◌, ℕ, suc, ◌<◌, Some};
ghost use Rattle.engine.specs.Marks.{members, before, ours};
ghost use Rattle.engine.specs.Rounded.{Holds, step_f};
ghost use Rattle.engine.specs.Satisfied.{asked};
ghost use Rattle.logic.specs.FixedPoints.{pre, F, lfp};
ghost use Rattle.logic.specs.Satisfaction.{sat_path, sat_weak};
ghost use Rattle.logic.specs.Sets.{empty, full};
ghost use Rattle.scale.specs.declared.reading.Reading.TheVariants.{Sometime, InfinitelyOften, EventuallyAlways, Always};

use crate::greatest::greatest;
use crate::least::least;
use crate::nested::{recurring, settling};
use crate::operands::Operands;
use crate::operator::Operator;
use crate::rounds::{NEVER, Rounds};
use crate::sets::StateSet;
use crate::steps::steps_into;
use model::interface::Model;
use scale::reading::Reading;

/// The states that joined before round `n` + 1, where the model has `n` states.
fn joined<M: Model>(model: &M, rounds: &Rounds) -> StateSet
    ensures { Holds (M.meaning model.now).states (before rounds.now (suc (M.meaning model.now).states)) result }
{
    let n = model.states();
    StateSet::such_that(model, |s| rounds.joined(s, n))
}

/// Round 0 for each state of the set, and never for the others.
pub(crate) fn join_first<M: Model>(model: &M, set: &StateSet) -> Rounds
    ensures { (s : ℕ) → s < (M.meaning model.now).states → before result 1 s ≡ members set.now s }
{
    Rounds::by(
        model.states(),
        NEVER,
        |s| if set.has(s) { 0 } else { NEVER },
    )
}

/// The least fixed point of F of S1 and S2.
fn least_set<M: Model>(model: &M, some: bool, s1: &StateSet, s2: &StateSet) -> StateSet
    ensures { Holds (M.meaning model.now).states (lfp (M.meaning model.now).states (step_f (M.meaning model.now) some s1.now s2.now)) result }
{
    joined(model, &least(model, some, s1, s2))
}

/// The states from which some walk, or every walk, comes to S1, whatever it passes.
fn sometime<M: Model>(model: &M, some: bool, s1: &StateSet) -> StateSet
    ensures { Holds (M.meaning model.now).states (lfp (M.meaning model.now).states (λ T. F (M.meaning model.now) (ours some) (members s1.now) full T)) result }
{
    least_set(model, some, s1, &StateSet::of(true))
}

/// W at a level that reads sometime.
fn either<M: Model>(model: &M, some: bool, operands: Operands) -> StateSet
    ensures { Holds (M.meaning model.now).states (sat_weak (M.meaning model.now) (ours some) (Some Sometime) (members operands.entry.left.now) (members operands.entry.right.now)) result }
{
    sometime(model, some, &operands.either(model))
}

/// W at a level that reads always.
fn always<M: Model>(model: &M, some: bool, operands: Operands) -> StateSet
    ensures { Holds (M.meaning model.now).states (sat_weak (M.meaning model.now) (ours some) (Some Always) (members operands.entry.left.now) (members operands.entry.right.now)) result }
{
    let n = model.states();
    let gone = greatest(model, some, operands.right, operands.left);
    StateSet::such_that(model, |s| !gone.joined(s, n))
}

/// W at a level that reads eventually always.
fn eventually<M: Model>(model: &M, some: bool, operands: Operands) -> StateSet
    ensures { Holds (M.meaning model.now).states (sat_weak (M.meaning model.now) (ours some) (Some EventuallyAlways) (members operands.entry.left.now) (members operands.entry.right.now)) result }
{
    joined(model, &settling(model, some, operands.right, operands.left))
}

// As `eventually`, with another fixed point: one that took it as a closure would be `joined` again.
/// W at a level that reads infinitely often.
fn infinitely<M: Model>(model: &M, some: bool, operands: Operands) -> StateSet
    ensures { Holds (M.meaning model.now).states (sat_weak (M.meaning model.now) (ours some) (Some InfinitelyOften) (members operands.entry.left.now) (members operands.entry.right.now)) result }
{
    joined(
        model,
        &recurring(model, some, operands.right, operands.left),
    )
}

/// X: the states with some step, or all steps, into the set.
fn next<M: Model>(model: &M, some: bool, left: &StateSet) -> StateSet
    ensures { Holds (M.meaning model.now).states (pre (M.meaning model.now) (ours some) (members left.now)) result }
{
    let first = join_first(model, left);
    StateSet::such_that(model, |s| steps_into(model, some, s, &first, 1))
}

/// W, by the level's reading.
fn weak<M: Model>(model: &M, some: bool, reading: Reading, operands: Operands) -> StateSet
    ensures { Holds (M.meaning model.now).states (sat_weak (M.meaning model.now) (ours some) (Some reading) (members operands.entry.left.now) (members operands.entry.right.now)) result }
{
    match reading {
        Reading::Sometime => either(model, some, operands),
        Reading::InfinitelyOften => infinitely(model, some, operands),
        Reading::EventuallyAlways => eventually(model, some, operands),
        Reading::Always => always(model, some, operands),
    }
}

/// G: W with nothing on the right.
fn globally<M: Model>(model: &M, some: bool, reading: Reading, left: &StateSet) -> StateSet
    ensures { Holds (M.meaning model.now).states (sat_weak (M.meaning model.now) (ours some) (Some reading) (members left.now) empty) result }
{
    let right = &StateSet::of(false);
    weak(model, some, reading, Operands { left, right })
}

/// The states from which some walk, or every walk, meets a level of this reading, where left and right reach it in
/// these sets.
pub fn satisfy<M: Model>(
    model: &M,
    some: bool,
    operator: Operator,
    reading: Reading,
    operands: Operands,
) -> StateSet
    ensures { Holds (M.meaning model.now).states (sat_path (M.meaning model.now) (ours some) (asked operator) (Some reading) (members operands.entry.left.now) (members operands.entry.right.now)) result }
{
    // No struct holds `some`, `operator` and `reading`: they come apart here and in `task_of`, and only `show` passes
    // on all three.
    match operator {
        Operator::Next => next(model, some, operands.left),
        Operator::Finally => sometime(model, some, operands.left),
        Operator::Globally => globally(model, some, reading, operands.left),
        Operator::Until => least_set(model, some, operands.right, operands.left),
        Operator::Weak => weak(model, some, reading, operands),
    }
}
