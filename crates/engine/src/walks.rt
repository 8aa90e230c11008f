//! One walk that meets a level, or breaks it.
ghost use Rattle.std.specs.Prelude.{◌<◌, ◌≤◌, length};
ghost use Rattle.model.specs.Walkable.{Total};
ghost use Rattle.engine.specs.Marks.{members};
ghost use Rattle.engine.specs.Satisfied.{asked, quantifier};
ghost use Rattle.engine.specs.Shown.{ShownBy};

use crate::operands::Operands;
use crate::operator::Operator;
use crate::search::search;
use crate::tasks::choosing::task_of;
use model::interface::Model;
use scale::reading::Reading;

// The pair is the users' form, made in `lasso`.
/// A walk from `s` that meets a level of this reading, for an E row, or breaks it, for an A row, where left and right
/// reach it in these sets. Writes its stem and its loop, and answers their lengths, if there is such a walk.
pub fn show<M: Model>(
    model: &M,
    some: bool,
    operator: Operator,
    reading: Reading,
    operands: Operands,
    s: u16,
    out: &mut [u16],
) -> Option<(u16, u16)>
    requires inside { s < (M.meaning model.now).states }
    requires total { Total (M.meaning model.now) }
    requires room { (M.meaning model.now).states ≤ length out.old }
    ensures { ShownBy (M.meaning model.now) (quantifier some) (asked operator) reading (members operands.entry.left.now) (members operands.entry.right.now) s out.old out.new result }
{
    let task = task_of(model, some, operator, reading, operands);
    search(model, operator, &task, s, out)
}
