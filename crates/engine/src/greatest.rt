//! Greatest fixed points of F: least ones for the other side.
ghost use Rattle.std.specs.Prelude.{◌≡◌, suc, replicate};
ghost use Rattle.engine.specs.Rounded.{Leaves, step_f};

use crate::least::least_into;
use crate::operands::Operands;
use crate::rounds::{NEVER, Rounds};
use crate::sets::StateSet;
use model::interface::Model;

/// As `greatest`, into rounds in which no state has left yet.
pub(crate) fn greatest_into<M: Model>(
    model: &M,
    some: bool,
    s1: &StateSet,
    s2: &StateSet,
    gone: &mut Rounds,
)
    requires gone { gone.old.at ≡ replicate 4096 65535 }
    ensures { Leaves (M.meaning model.now).states (step_f (M.meaning model.now) some s1.now s2.now) gone.new (suc (M.meaning model.now).states) }
{
    let a = Operands {
        left: s2,
        right: s1,
    }
    .neither(model);
    let b = s1.outside(model);
    least_into(model, !some, &a, &b, gone);
}

/// The greatest fixed point of F of S1 and S2, by the round in which each other state leaves it.
pub fn greatest<M: Model>(model: &M, some: bool, s1: &StateSet, s2: &StateSet) -> Rounds
    ensures { Leaves (M.meaning model.now).states (step_f (M.meaning model.now) some s1.now s2.now) result (suc (M.meaning model.now).states) }
{
    let mut gone = Rounds::of(NEVER);
    greatest_into(model, some, s1, s2, &mut gone);
    gone
}
