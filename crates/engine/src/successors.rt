//! The states to which a state has a step, one after another.
ghost use Rattle.std.specs.Prelude.{◌≡◌};
ghost use Rattle.std.specs.Iterator.{YieldsFirst, item_count};
ghost use Rattle.engine.specs.Targets.{targets};

use model::interface::Model as FiniteModel;

/// The states from `next` on to which `s` has a step.
#[derive(Drop)]
pub(crate) struct Successors<'a, M> {
    model: &'a M,
    s: u16,
    next: u16,
}

impl<'a, M: FiniteModel> Successors<'a, M> {
    /// The states to which `s` has a step.
    pub(crate) fn of(model: &'a M, s: u16) -> Successors<'a, M>
        ensures { targets (M.meaning result.model.now) result.s result.next ≡ targets (M.meaning model.now) s 0 }
    {
        Successors { model, s, next: 0 }
    }
}

impl<'a, M: FiniteModel> Iterator for Successors<'a, M> {
    type Item = u16;

    ghost next_gives = { YieldsFirst (λ i. targets (M.meaning i.model.now) i.s i.next) };

    ghost remaining = { item_count (λ i. targets (M.meaning i.model.now) i.s i.next) };

    fn next(&mut self) -> Option<u16> {
        let u = self.model.least_step(self.s, self.next)?;
        self.next = u + 1;
        Some(u)
    }
}
