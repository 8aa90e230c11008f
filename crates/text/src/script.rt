//! What a text says.
ghost use Rattle.std.specs.Prelude.{◌≡◌};

use arrayvec::ArrayVec;
use model::table::{Holding, Step, Table};
use sheet::row::Row;

/// The model that a text names.
#[derive(Clone, Copy, PartialEq, Eq, Debug)]
pub enum Source {
    /// A table of so many states and propositions; lines for its steps and holdings follow.
    // Two numbers, not a `Size`: a line has them one after the other, and the language's definitions name each.
    Table(u16, u8),
    /// A pool of so many buffers, and its guard.
    // The guard is a number, as a pool has it.
    Pool(u8, u8),
}

/// A question: which degree has this row at this state?
#[derive(Clone, Copy, PartialEq, Eq, Debug, Default)]
pub struct Ask {
    pub state: u16,
    pub row: u8,
}

/// What the lines after the model's say. The rows are those of all formulas, in the order in which they are entered.
#[derive(Default, Drop)]
pub struct Body {
    pub steps: ArrayVec<Step, 1024>,
    pub holdings: ArrayVec<Holding, 1024>,
    // One list for all asks, and an ask tells its row by number: so the sheet numbers them.
    pub rows: ArrayVec<Row, 32>,
    pub asks: ArrayVec<Ask, 8>,
}

impl Body {
    /// The table of so many states and propositions whose lists these are.
    pub fn table(&self, states: u16, props: u8) -> Table<'_>
        ensures counts { (result.states ≡ states) × (result.props ≡ props) }
        ensures lists { (result.steps.now ≡ self.now.steps.items) × (result.holdings.now ≡ self.now.holdings.items) }
    {
        Table {
            states,
            props,
            steps: self.steps.as_slice(),
            holdings: self.holdings.as_slice(),
        }
    }
}

/// What a text says.
#[derive(Drop)]
pub struct Script {
    /// How many levels the scale has: 1 or 4.
    // Not an enum: the number counts levels, and `digits` takes it so.
    pub levels: u8,
    pub source: Source,
    pub body: Body,
}
