//! Two models side by side.
ghost use Rattle.std.specs.Prelude.{◌≡◌, ◌+◌, ◌*◌, ◌/◌, ◌%◌, ◌<◌, ◌≤◌, ◌&&◌, ◌==◌};
ghost use Rattle.model.specs.Lawfulness.{paired_lawful};
ghost use Rattle.model.specs.Limits.{kept};
ghost use Rattle.model.specs.Meaning.{Least};
ghost use Rattle.model.specs.Pairs.{paired, labels};

use crate::interface::{Model as FiniteModel, Size};
use crate::lesser::lesser_of;

/// Two models of which one steps while the other waits.
///
/// With the parts in states `a` and `b`, the pair is in state `a` × (how many states the second part has) + `b`. The
/// first part's propositions come first. Where a part has no states, or both together would have more than 4,096
/// states or 64 propositions, the pair has neither.
#[derive(Drop)]
pub struct Pair<A, B> {
    pub first: A,
    pub second: B,
}

/// The size of a pair whose parts have these sizes.
fn joined(a: Size, b: Size) -> Size
    ensures states { result.states ≡ kept (a.states * b.states) (labels (a.states * b.states) (a.props + b.props)) (a.states * b.states) }
    ensures props { result.props ≡ kept (a.states * b.states) (labels (a.states * b.states) (a.props + b.props)) (labels (a.states * b.states) (a.props + b.props)) }
{
    let states = u32::from(a.states) * u32::from(b.states);
    let props = if states == 0 {
        0
    } else {
        u16::from(a.props) + u16::from(b.props)
    };
    Size::within(states, props)
}

/// The least state of a pair from `t` on to which its first part steps from `i`, while the second, of `width` states,
/// waits in `j`.
fn first_steps<M: FiniteModel>(part: &M, width: u16, i: u16, j: u16, t: u16) -> Option<u16>
    requires { (j < width) × ((M.meaning part.now).states * width ≤ 4096) }
    ensures { Least (λ u. (u % width == j) && (M.meaning part.now).step i (u / width)) t result }
{
    let from = t.saturating_sub(j).div_ceil(width);
    part.least_step(i, from).map(|k| k * width + j)
}

/// The least state of a pair from `t` on to which its second part, of `width` states, steps from `j`, while the first
/// waits in `i`.
fn second_steps<M: FiniteModel>(part: &M, width: u16, i: u16, j: u16, t: u16) -> Option<u16>
    requires { ((M.meaning part.now).states ≡ width) × (0 < width) × (i * width + width ≤ 4096) }
    ensures { Least (λ u. (u / width == i) && (M.meaning part.now).step j (u % width)) t result }
{
    let low = i * width;
    part.least_step(j, t.saturating_sub(low)).map(|k| low + k)
}

impl<A: FiniteModel, B: FiniteModel> FiniteModel for Pair<A, B> {
    ghost meaning = { λ x. paired (A.Model.meaning x.first) (B.Model.meaning x.second) };

    ghost lawful = { λ x. paired_lawful (A.Model.meaning x.first) (B.Model.meaning x.second) };

    fn size(&self) -> Size {
        joined(self.first.size(), self.second.size())
    }

    fn least_step(&self, s: u16, t: u16) -> Option<u16> {
        let a = self.first.size();
        let b = self.second.size();
        if s >= joined(a, b).states {
            return None;
        }
        let i = s / b.states;
        let j = s % b.states;
        lesser_of(
            first_steps(&self.first, b.states, i, j, t),
            second_steps(&self.second, b.states, i, j, t),
        )
    }

    fn holds(&self, p: u8, s: u16) -> bool {
        let a = self.first.size();
        let b = self.second.size();
        if !joined(a, b).has(p, s) {
            return false;
        }
        if p < a.props {
            self.first.holds(p, s / b.states)
        } else {
            self.second.holds(p - a.props, s % b.states)
        }
    }
}
