//! The search for one endless walk: where there is one, and a walk in writing.
ghost use Rattle.std.specs.Prelude.{◌≡◌, ℕ, ◌<◌, ◌≤◌, length, MatchOption, ◌≢◌, slice_index};
ghost use Rattle.model.specs.Walkable.{HasStep, Total};
ghost use Rattle.logic.specs.Searches.{sought, Guides, Followed};
ghost use Rattle.engine.specs.Lassos.{Written, Searched, endless};
ghost use Rattle.engine.specs.Marks.{round_of};
ghost use Rattle.engine.specs.Satisfied.{asked};
ghost use Rattle.engine.specs.Seeking.{Goes, found_by};
ghost use Rattle.engine.specs.Shown.{carried};

use crate::operator::Operator;
use crate::passing::{remaining, returning};
use crate::rounds::Rounds;
use crate::satisfy::join_first;
use crate::steps::steps_into;
use crate::successors::Successors;
use crate::tasks::Task;
use model::interface::Model;

/// The step of `s` to a state of the least round.
fn least_step<M: Model>(model: &M, s: u16, rank: &Rounds) -> u16
    requires { HasStep (M.meaning model.now) s }
    ensures { Goes (M.meaning model.now) (round_of rank.now) s result }
{
    Successors::of(model, s)
        .min_by_key(|u| rank.round(*u))
        .unwrap()
}

/// The place of `t` in the slice.
fn place_of(places: &[u16], t: u16) -> Option<u16>
    requires { length places.now < 65536 }
    ensures { MatchOption result ((k : ℕ) → k < length places.now → slice_index places.now k ≢ t) (λ p. (p < length places.now) × (slice_index places.now p ≡ t)) }
{
    let p = places.iter().position(|x| *x == t)?;
    // By `as`: the place fits, and `try_from` would have an error that cannot come.
    Some(p as u16)
}

// `inside`, `total` and `room` stand in three contracts: a struct with them would be made in `show` and taken apart in
// `lasso`, which writes `out`.
// The lengths are a pair: it is handed on as it is to `walk`, whose pair is the users' form.
/// Writes the walk from `s` that always goes to a least round: the lengths of its stem and of its loop.
fn lasso<M: Model>(model: &M, s: u16, rank: &Rounds, out: &mut [u16]) -> (u16, u16)
    requires inside { s < (M.meaning model.now).states }
    requires total { Total (M.meaning model.now) }
    requires room { (M.meaning model.now).states ≤ length out.old }
    ensures written { Written (M.meaning model.now).states out.old out.new result.0 result.1 }
    ensures followed { Followed (M.meaning model.now) (round_of rank.now) s (endless out.new result.0 result.1) }
{
    let n = model.states();
    let mut t = s;
    // By index: a place is written only once the walk has come there, and the places before it are read.
    for i in 0..n {
        if let Some(p) = place_of(&out[..usize::from(i)], t) {
            return (p, i - p);
        }
        out[usize::from(i)] = t;
        t = least_step(model, t, rank);
    }
    let p = place_of(&out[..usize::from(n)], t).unwrap();
    (p, n - p)
}

/// The rounds that guide the walk to be found.
fn seek<M: Model>(model: &M, operator: Operator, task: &Task) -> Rounds
    ensures guides { Guides (M.meaning model.now) (asked operator) (carried task.now) (round_of result) }
    ensures find { (s : ℕ) → s < (M.meaning model.now).states → found_by (M.meaning model.now) (asked operator) result s ≡ sought (M.meaning model.now) (asked operator) (carried task.now) s }
{
    // `settles` is asked here alone, between two calls: a closure or a `dyn` value would be no plainer.
    if operator == Operator::Next {
        join_first(model, &task.a)
    } else if task.settles {
        remaining(model, true, &task.a, &task.b, &task.c)
    } else {
        returning(model, true, &task.a, &task.b, &task.c)
    }
}

// X is asked here and in `seek`, and nowhere else: its rounds are counted otherwise. `operator` and `s` go on one by one,
// since `seek` asks the first alone.
/// Is `s` found by the rounds that guide the walk?
fn finds<M: Model>(model: &M, operator: Operator, rounds: &Rounds, s: u16) -> bool
    ensures { result ≡ found_by (M.meaning model.now) (asked operator) rounds.now s }
{
    if operator == Operator::Next {
        steps_into(model, true, s, rounds, 1)
    } else {
        rounds.joined(s, model.states())
    }
}

/// A walk from `s` that does the task; for X, a walk whose next state is in the task's `a`. Writes its stem and its
/// loop, and answers their lengths, where there is such a walk.
pub fn search<M: Model>(
    model: &M,
    operator: Operator,
    task: &Task,
    s: u16,
    out: &mut [u16],
) -> Option<(u16, u16)>
    requires inside { s < (M.meaning model.now).states }
    requires total { Total (M.meaning model.now) }
    requires room { (M.meaning model.now).states ≤ length out.old }
    ensures { Searched (M.meaning model.now) (asked operator) (carried task.now) s out.old out.new result }
{
    let rounds = seek(model, operator, task);
    // Not `then`: its closure would take the caller's buffer along, and it reads no plainer.
    if finds(model, operator, &rounds, s) {
        Some(lasso(model, s, &rounds, out))
    } else {
        None
    }
}
