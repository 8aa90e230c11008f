//! The tests whether a state belongs to the operators F and G.
ghost use Rattle.std.specs.Prelude.{◌≡◌};
ghost use Rattle.engine.specs.Marks.{members, before, ours};
ghost use Rattle.logic.specs.FixedPoints.{pre, F, G};

use crate::rounds::Rounds;
use crate::sets::StateSet;
use crate::successors::Successors;
use model::interface::Model;

/// Does some step of `s`, or does every step, lead to a state that joined before round `k`?
pub fn steps_into<M: Model>(model: &M, some: bool, s: u16, joined: &Rounds, k: u16) -> bool
    ensures { result ≡ pre (M.meaning model.now) (ours some) (before joined.now k) s }
{
    // Some step leads there; or, where `some` is false, no step leads elsewhere. A bool and no enum: it is compared
    // here, and `!` turns it.
    Successors::of(model, s).any(|u| (joined.round(u) < k) == some) == some
}

/// Is `s` in F (S1, S2, T), where T are the states that joined before round `k`?
#[tactic(auto, using(std::proofs::lemmas::Bool::Decides::nat_tests), unfolding(logic::specs::FixedPoints::F))]
pub fn in_f<M: Model>(
    model: &M,
    some: bool,
    s: u16,
    s1: &StateSet,
    s2: &StateSet,
    t: &Rounds,
    k: u16,
) -> bool
    ensures { result ≡ F (M.meaning model.now) (ours some) (members s1.now) (members s2.now) (before t.now k) s }
{
    s1.has(s) || s2.has(s) && steps_into(model, some, s, t, k)
}

/// Is `s` in G (S1, S2, T1, T2), where T1 are the states that joined before round `k` by `t1`, and T2 before `j` by
/// `t2`?
#[tactic(auto, using(std::proofs::lemmas::Bool::Decides::nat_tests), unfolding(logic::specs::FixedPoints::G))]
pub fn in_g<M: Model>(
    model: &M,
    some: bool,
    s: u16,
    s1: &StateSet,
    s2: &StateSet,
    t1: &Rounds,
    k: u16,
    t2: &Rounds,
    j: u16,
) -> bool
    ensures { result ≡ G (M.meaning model.now) (ours some) (members s1.now) (members s2.now) (before t1.now k) (before t2.now j) s }
{
    s1.has(s) || steps_into(model, some, s, t1, k) || s2.has(s) && steps_into(model, some, s, t2, j)
}
