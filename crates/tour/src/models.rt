//! The models of the tour.
use crate::show;
use model::pair::Pair;
use model::pool::Pool;
use model::table::{Holding, Step, Table};
use std::io;

/// Three states: the walk may stay in the first and must stay in the last.
pub(crate) const STAYING: Table<'static> = Table {
    states: 3,
    props: 1,
    steps: &[
        Step { from: 0, to: 0 },
        Step { from: 0, to: 1 },
        Step { from: 1, to: 2 },
        Step { from: 2, to: 2 },
    ],
    holdings: &[Holding { prop: 0, state: 0 }, Holding { prop: 0, state: 2 }],
};

/// Two states by turns.
pub(crate) const ALTERNATING: Table<'static> = Table {
    states: 2,
    props: 1,
    steps: &[Step { from: 0, to: 1 }, Step { from: 1, to: 0 }],
    holdings: &[Holding { prop: 0, state: 0 }],
};

/// One state that steps to itself.
pub(crate) const STILL: Table<'static> = Table {
    states: 1,
    props: 0,
    steps: &[Step { from: 0, to: 0 }],
    holdings: &[],
};

/// The film breaks in state 1.
pub(crate) const BREAKING: Table<'static> = Table {
    states: 2,
    props: 0,
    steps: &[Step { from: 0, to: 0 }, Step { from: 0, to: 1 }],
    holdings: &[],
};

/// One frame buffer that two capture threads share.
pub(crate) fn pools(rt: &HostRuntime) -> io::Result<()> {
    println!(rt; "A pool of one frame buffer, without a guard:")?;
    show::pool(
        rt,
        &Pool {
            buffers: 1,
            guard: 0,
        },
    )?;
    println!(rt; "The same pool with a guard, so that no step tears a frame:")?;
    show::pool(
        rt,
        &Pool {
            buffers: 1,
            guard: 1,
        },
    )
}

/// Two tables.
pub(crate) fn tables(rt: &HostRuntime) -> io::Result<()> {
    println!(rt; "A table of three states that may stay in the first and must stay in the last:")?;
    show::whole(rt, &STAYING)?;
    println!(rt; "A table of two states that alternate:")?;
    show::whole(rt, &ALTERNATING)
}

/// Models side by side.
pub(crate) fn pairs(rt: &HostRuntime) -> io::Result<()> {
    println!(rt; "A pair of a one-state loop with the table of two states:")?;
    show::whole(
        rt,
        &Pair {
            first: STILL,
            second: ALTERNATING,
        },
    )?;
    println!(rt;
        "A pair of two pools of three buffers, the first without a guard, the second with one:"
    )?;
    let first = Pool {
        buffers: 3,
        guard: 0,
    };
    let second = Pool {
        buffers: 3,
        guard: 1,
    };
    let boards = Pair { first, second };
    show::size(rt, &boards)?;
    show::torn(rt, &boards, 0)?;
    show::torn(rt, &boards, 2)?;
    show::walkability(rt, &boards)
}

/// Models that cannot be walked.
pub(crate) fn refusals(rt: &HostRuntime) -> io::Result<()> {
    println!(rt; "A table with a dead end, as where the film breaks:")?;
    show::whole(rt, &BREAKING)?;
    println!(rt; "A pool of seven buffers, one more than a pool may have:")?;
    let large = Pool {
        buffers: 7,
        guard: 0,
    };
    show::size(rt, &large)?;
    show::walkability(rt, &large)
}
