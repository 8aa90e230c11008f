//! Least fixed points of F.
ghost use Rattle.std.specs.Prelude.{◌≡◌, suc, replicate};
ghost use Rattle.logic.specs.Sets.{Set};
ghost use Rattle.engine.specs.Rounded.{EachRound, Grows, Joins, Round, Ruled, step_f};

use crate::rounds::{NEVER, Rounds};
use crate::sets::StateSet;
use crate::steps::in_f;
use model::interface::Model;

// No struct of `k` and `joined`: the same rounds go through every `k`, so it would be made anew for each.
/// Round `k`: each state that has not joined and that the rule lets in joins. Did any?
pub(crate) fn join<M: Model, F: Fn(u16, &Rounds) -> bool>(
    model: &M,
    k: u16,
    joined: &mut Rounds,
    rule: F,
) -> bool
    requires { F.IsAlwaysCallable rule }
    ensures { (f : Set → Set) → Ruled f k (F.post rule) → Round (M.meaning model.now).states f k joined.old joined.new result }
{
    let mut grew = false;
    // By index, since the rule reads all the rounds while one of them is written.
    for s in 0..model.states() {
        if joined.at[usize::from(s)] == NEVER && rule(s, joined) {
            joined.at[usize::from(s)] = k;
            grew = true;
        }
    }
    grew
}

/// Round after round, where no state has joined yet, up to one in which none joins: `round` answers whether one did.
pub(crate) fn fill<M: Model, F: Fn(u16, &mut Rounds) -> bool>(
    model: &M,
    joined: &mut Rounds,
    round: F,
)
    requires joined { joined.old.at ≡ replicate 4096 65535 }
    requires takes { F.IsAlwaysCallable round }
    ensures { (f : Set → Set) → Grows (M.meaning model.now).states f → EachRound (M.meaning model.now).states f (F.post round) → Joins (M.meaning model.now).states f joined.new (suc (M.meaning model.now).states) }
{
    // Not by `all` on the range: tried, the proof did not close where its closure hands `joined` on to `round`.
    for k in 0..model.states() + 1 {
        if !round(k, joined) {
            return;
        }
    }
}

// No struct of `s1` and `s2`: F is taken at other sets in each call, so it would be made and taken apart for each.
// The rounds are lent, here and in `greatest_into`, `returning_into` and `remaining_into`: a function that hands on the
// rounds that another answers clears 8 KiB for them and copies them once more.
/// As `least`, into rounds in which no state has joined yet.
pub(crate) fn least_into<M: Model>(
    model: &M,
    some: bool,
    s1: &StateSet,
    s2: &StateSet,
    joined: &mut Rounds,
)
    requires joined { joined.old.at ≡ replicate 4096 65535 }
    ensures { Joins (M.meaning model.now).states (step_f (M.meaning model.now) some s1.now s2.now) joined.new (suc (M.meaning model.now).states) }
{
    // As `remaining_into`: what the two share is `fill`, and each gives it a round of its own.
    fill(model, joined, |k, joined| {
        join(model, k, joined, |s, joined| {
            in_f(model, some, s, s1, s2, joined, k)
        })
    });
}

/// The least fixed point of F of S1 and S2, by the round in which each state joins it.
pub fn least<M: Model>(model: &M, some: bool, s1: &StateSet, s2: &StateSet) -> Rounds
    ensures { Joins (M.meaning model.now).states (step_f (M.meaning model.now) some s1.now s2.now) result (suc (M.meaning model.now).states) }
{
    let mut joined = Rounds::of(NEVER);
    least_into(model, some, s1, s2, &mut joined);
    joined
}
