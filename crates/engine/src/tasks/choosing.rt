//! The task for a row and a level.
ghost use Rattle.engine.specs.Marks.{members};
ghost use Rattle.engine.specs.Satisfied.{asked, quantifier};
ghost use Rattle.engine.specs.Shown.{Carries};
ghost use Rattle.logic.specs.Searches.{meet_weak, break_weak, meet_task, break_task, task_of};

use super::Task;
use crate::operands::Operands;
use crate::operator::Operator;
use crate::sets::StateSet;
use model::interface::Model;
use scale::reading::Reading;

// Four tables, one for each definition of the logic: two to meet a level and two to break it.
/// To meet a level with W.
#[tactic(auto, using(crate::proofs::Choosing::holds_none))]
fn meet_weak<M: Model>(model: &M, reading: Reading, operands: Operands) -> Task
    ensures { Carries (M.meaning model.now).states (meet_weak reading (members operands.entry.left.now) (members operands.entry.right.now)) result }
{
    let all = StateSet::of(true);
    let none = StateSet::of(false);
    match reading {
        Reading::Sometime => Task {
            a: operands.either(model),
            b: all,
            c: none,
            settles: false,
        },
        Reading::InfinitelyOften => Task {
            a: *operands.right,
            b: all,
            c: *operands.left,
            settles: false,
        },
        Reading::EventuallyAlways => Task {
            a: *operands.right,
            b: all,
            c: *operands.left,
            settles: true,
        },
        Reading::Always => Task {
            a: *operands.right,
            b: none,
            c: *operands.left,
            settles: false,
        },
    }
}

/// To break a level with W.
#[tactic(auto, using(crate::proofs::Choosing::holds_none))]
fn break_weak<M: Model>(model: &M, reading: Reading, operands: Operands) -> Task
    ensures { Carries (M.meaning model.now).states (break_weak reading (members operands.entry.left.now) (members operands.entry.right.now)) result }
{
    let none = StateSet::of(false);
    let bad = operands.neither(model);
    let free = operands.right.outside(model);
    match reading {
        Reading::Sometime => Task {
            a: none,
            b: none,
            c: bad,
            settles: false,
        },
        Reading::InfinitelyOften => Task {
            a: none,
            b: free,
            c: bad,
            settles: true,
        },
        Reading::EventuallyAlways => Task {
            a: none,
            b: free,
            c: bad,
            settles: false,
        },
        Reading::Always => Task {
            a: bad,
            b: free,
            c: none,
            settles: false,
        },
    }
}

/// To meet a level with any operator.
#[tactic(auto, using(crate::proofs::Choosing::holds_none))]
fn meet<M: Model>(model: &M, operator: Operator, reading: Reading, operands: Operands) -> Task
    ensures { Carries (M.meaning model.now).states (meet_task (asked operator) reading (members operands.entry.left.now) (members operands.entry.right.now)) result }
{
    let all = StateSet::of(true);
    let none = StateSet::of(false);
    match operator {
        Operator::Next => Task {
            a: *operands.left,
            b: none,
            c: none,
            settles: false,
        },
        Operator::Finally => Task {
            a: *operands.left,
            b: all,
            c: none,
            settles: false,
        },
        Operator::Globally => meet_weak(
            model,
            reading,
            Operands {
                right: &none,
                ..operands
            },
        ),
        Operator::Until => Task {
            a: *operands.right,
            b: *operands.left,
            c: none,
            settles: false,
        },
        Operator::Weak => meet_weak(model, reading, operands),
    }
}

/// To break a level with any operator.
#[tactic(auto, using(crate::proofs::Choosing::holds_none, crate::proofs::Choosing::outside_all))]
fn break_level<M: Model>(
    model: &M,
    operator: Operator,
    reading: Reading,
    operands: Operands,
) -> Task
    ensures { Carries (M.meaning model.now).states (break_task (asked operator) reading (members operands.entry.left.now) (members operands.entry.right.now)) result }
{
    let none = StateSet::of(false);
    match operator {
        Operator::Next => Task {
            a: operands.left.outside(model),
            b: none,
            c: none,
            settles: false,
        },
        Operator::Finally => Task {
            a: none,
            b: none,
            c: operands.left.outside(model),
            settles: false,
        },
        Operator::Globally => break_weak(
            model,
            reading,
            Operands {
                right: &none,
                ..operands
            },
        ),
        Operator::Until => Task {
            a: operands.neither(model),
            b: none,
            c: operands.right.outside(model),
            settles: false,
        },
        Operator::Weak => break_weak(model, reading, operands),
    }
}

/// The task of a walk for an E row, which is to meet the level, or for an A row, which is to break it.
pub(crate) fn task_of<M: Model>(
    model: &M,
    some: bool,
    operator: Operator,
    reading: Reading,
    operands: Operands,
) -> Task
    ensures { Carries (M.meaning model.now).states (task_of (quantifier some) (asked operator) reading (members operands.entry.left.now) (members operands.entry.right.now)) result }
{
    // `some` is asked here alone, between two calls: a closure or a `dyn` value would be no plainer.
    if some {
        meet(model, operator, reading, operands)
    } else {
        break_level(model, operator, reading, operands)
    }
}
