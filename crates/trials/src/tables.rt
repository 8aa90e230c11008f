//! Models that tests share.
// The tables are the tour's as well: no crate can name what is in a program.
use model::pool::Pool;
use model::table::{Holding, Step, Table};

/// Three states: the walk may stay in the first and must stay in the last.
pub(crate) const STAYING: Table<'static> = Table {
    states: 3,
    props: 1,
    steps: &[
        Step { from: 0, to: 0 },
        Step { from: 0, to: 1 },
        Step { from: 1, to: 2 },
        Step { from: 2, to: 2 },
    ],
    holdings: &[Holding { prop: 0, state: 0 }, Holding { prop: 0, state: 2 }],
};

/// Two states by turns.
pub(crate) const ROUND: Table<'static> = Table {
    states: 2,
    props: 1,
    steps: &[Step { from: 0, to: 1 }, Step { from: 1, to: 0 }],
    holdings: &[Holding { prop: 0, state: 0 }],
};

/// One state that steps to itself.
pub(crate) const STILL: Table<'static> = Table {
    states: 1,
    props: 0,
    steps: &[Step { from: 0, to: 0 }],
    holdings: &[],
};

// Two numbers, as a `Pool` has them.
/// A pool of frame buffers.
pub(crate) fn pool(buffers: u8, guard: u8) -> Pool {
    Pool { buffers, guard }
}
