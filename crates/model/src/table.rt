//! A model given by two lists.
ghost use Rattle.model.specs.Lawfulness.{listed_lawful};
ghost use Rattle.model.specs.Tables.{listed};

use crate::interface::{Model as FiniteModel, Size};
use crate::lesser::lesser_of;

/// A step of a table.
#[derive(Clone, Copy, PartialEq, Eq, Debug, Default)]
pub struct Step {
    pub from: u16,
    pub to: u16,
}

/// A proposition of a table that holds in a state of it.
#[derive(Clone, Copy, PartialEq, Eq, Debug, Default)]
pub struct Holding {
    pub prop: u8,
    pub state: u16,
}

/// A model by its counts and the caller's two lists.
///
/// A record that names a missing state or proposition counts for nothing. Beyond 4,096 states or 64 propositions
/// the table has neither.
#[derive(Clone, Copy)]
pub struct Table<'a> {
    pub states: u16,
    pub props: u8,
    pub steps: &'a [Step],
    pub holdings: &'a [Holding],
}

impl FiniteModel for Table<'_> {
    ghost meaning = { λ x. listed x.states x.props x.steps.now x.holdings.now };

    ghost lawful = { λ x. listed_lawful x.states x.props x.steps.now x.holdings.now };

    fn size(&self) -> Size {
        Size::within(u32::from(self.states), u16::from(self.props))
    }

    fn least_step(&self, s: u16, t: u16) -> Option<u16> {
        let n = self.size().states;
        if s >= n {
            return None;
        }
        let mut least: Option<u16> = None;
        // The project keeps this form here: a `for` over the plain step records.
        for e in self.steps {
            if e.from == s && e.to >= t && e.to < n {
                least = lesser_of(least, Some(e.to));
            }
        }
        least
    }

    fn holds(&self, p: u8, s: u16) -> bool {
        if !self.size().has(p, s) {
            return false;
        }
        // The project keeps this form here too.
        for h in self.holdings {
            if h.prop == p && h.state == s {
                return true;
            }
        }
        false
    }
}
