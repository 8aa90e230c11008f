//! Models at the edges.
use super::tables::{ROUND, STILL, pool};
use model::check::walkable;
use model::fault::ModelFault;
use model::interface::{Model, Size};
use model::pair::Pair;
use model::table::{Holding, Step, Table};

const NOTHING: Size = Size {
    states: 0,
    props: 0,
};

fn size(states: u16, props: u8) -> Size {
    Size { states, props }
}

/// Two models side by side.
fn beside<A, B>(first: A, second: B) -> Pair<A, B> {
    Pair { first, second }
}

// By `fold`, since the count of a `flat_map` owes a proof that it fits, and that did not close.
/// How many steps a model has.
fn steps<M: Model>(model: &M) -> usize {
    let n = model.states();
    (0..n).fold(0usize, |k, s| {
        let from_s = (0..n).filter(|&t| model.least_step(s, t) == Some(t));
        k.saturating_add(from_s.count())
    })
}

/// In how many states a proposition holds.
fn holdings<M: Model>(model: &M, p: u8) -> usize {
    (0..model.states()).filter(|&s| model.holds(p, s)).count()
}

#[test]
fn a_pool_has_one_to_six_buffers(rt: HostRuntime) {
    let six = pool(6, 1);
    assert_eq!(rt; six.size(), size(4096, 2));
    assert_eq!(rt; walkable(&six), Ok(()));
    assert_eq!(rt; pool(7, 0).size(), NOTHING);
    assert_eq!(rt; walkable(&pool(7, 0)), Err(ModelFault::NoStates));
    assert_eq!(rt; pool(0, 0).size(), NOTHING);
    assert_eq!(rt; pool(1, 2).size(), NOTHING);
    assert_eq!(rt; pool(255, 255).size(), NOTHING);
}

#[test]
fn each_state_of_a_pool_has_two_moves_a_buffer_unless_guarded(rt: HostRuntime) {
    assert_eq!(rt; steps(&pool(2, 0)), 64);
    assert_eq!(rt; steps(&pool(2, 1)), 48);
    assert_eq!(rt; holdings(&pool(3, 0), 0), 64 - 27);
    assert_eq!(rt; holdings(&pool(3, 1), 1), 64 - 27);
}

#[test]
fn a_pool_moves_one_digit(rt: HostRuntime) {
    let pool = pool(2, 0);
    assert_eq!(rt;
        pool.least_step(6, 0),
        Some(2),
        "A gives back the high buffer"
    );
    assert_eq!(rt;
        pool.least_step(6, 3),
        Some(4),
        "B gives back the low buffer"
    );
    assert_eq!(rt; pool.least_step(6, 5), Some(7), "A tears the low frame");
    assert_eq!(rt; pool.least_step(6, 8), Some(14), "B tears the high frame");
    assert_eq!(rt; pool.least_step(6, 15), None);
}

#[test]
fn pools_pair_up_to_4096_states(rt: HostRuntime) {
    let three = pool(3, 0);
    let four = pool(4, 0);
    let pair = beside(three, three);
    assert_eq!(rt; pair.size(), size(4096, 4));
    assert_eq!(rt; walkable(&pair), Ok(()));
    let wide = beside(three, four);
    assert_eq!(rt; wide.size(), NOTHING);
    assert_eq!(rt; walkable(&wide), Err(ModelFault::NoStates));
}

#[test]
fn a_table_beyond_the_limits_has_nothing(rt: HostRuntime) {
    let tall = Table {
        states: 4097,
        ..ROUND
    };
    assert_eq!(rt; tall.size(), NOTHING);
    assert_eq!(rt; tall.least_step(0, 0), None);
    assert!(rt; !tall.holds(0, 0));
    let wide = Table { props: 65, ..ROUND };
    assert_eq!(rt; wide.size(), NOTHING);
    assert_eq!(rt; wide.least_step(0, 0), None);
    assert!(rt; !wide.holds(0, 0));
    let full = Table {
        states: 4096,
        props: 64,
        ..ROUND
    };
    assert_eq!(rt; full.size(), size(4096, 64));
}

#[test]
fn a_record_of_what_is_missing_counts_for_nothing(rt: HostRuntime) {
    let steps = [
        Step { from: 0, to: 2 },
        Step { from: 2, to: 0 },
        Step { from: 0, to: 1 },
    ];
    let holdings = [
        Holding { prop: 1, state: 0 },
        Holding { prop: 0, state: 2 },
        Holding { prop: 0, state: 1 },
    ];
    let table = Table {
        states: 2,
        props: 1,
        steps: &steps,
        holdings: &holdings,
    };
    assert_eq!(rt; table.least_step(0, 0), Some(1));
    assert_eq!(rt; table.least_step(0, 2), None);
    assert_eq!(rt; table.least_step(2, 0), None);
    assert!(rt;
        !table.holds(1, 0) && !table.holds(0, 2) && !table.holds(0, 0) && table.holds(0, 1)
    );
}

#[test]
fn questions_at_the_edges_of_the_numbers(rt: HostRuntime) {
    assert_eq!(rt; ROUND.least_step(0, 0), Some(1));
    assert_eq!(rt; ROUND.least_step(0, 2), None);
    assert_eq!(rt; ROUND.least_step(2, 0), None);
    assert_eq!(rt; ROUND.least_step(65535, 65535), None);
    assert!(rt; !ROUND.holds(255, 65535));
    let pool = pool(6, 0);
    assert_eq!(rt; pool.least_step(4095, 65535), None);
    assert_eq!(rt; pool.least_step(4096, 0), None);
    assert!(rt; !pool.holds(2, 0) && !pool.holds(0, 4096) && pool.holds(0, 4095));
    let pair = beside(pool, STILL);
    assert_eq!(rt; pair.least_step(0, 65535), None);
    assert_eq!(rt; pair.least_step(65535, 0), None);
    assert!(rt; !pair.holds(255, 0) && !pair.holds(0, 65535));
}

#[test]
fn one_part_of_a_pair_steps_while_the_other_waits(rt: HostRuntime) {
    let pair = beside(ROUND, pool(1, 0));
    assert_eq!(rt; pair.size(), size(8, 3));
    assert_eq!(rt; pair.least_step(1, 0), Some(0), "A gives its buffer back");
    assert_eq!(rt; pair.least_step(1, 1), Some(3), "B tears the frame");
    assert_eq!(rt; pair.least_step(1, 4), Some(5), "the table goes round");
    assert_eq!(rt; pair.least_step(1, 6), None);
    assert!(rt; pair.holds(0, 3) && pair.holds(1, 3) && !pair.holds(2, 3));
    assert!(rt; !pair.holds(0, 4) && !pair.holds(1, 4) && pair.holds(2, 4) && !pair.holds(3, 4));
}

#[test]
fn a_pair_of_pairs_is_a_pair(rt: HostRuntime) {
    let left = beside(ROUND, ROUND);
    let right = beside(STILL, ROUND);
    let pile = beside(left, right);
    assert_eq!(rt; pile.size(), size(8, 3));
    assert_eq!(rt;
        steps(&pile),
        8 * 4,
        "three tables go round and one stands still"
    );
    assert_eq!(rt; pile.least_step(7, 0), Some(3));
    assert_eq!(rt; pile.least_step(7, 4), Some(5));
    assert!(rt; !pile.holds(0, 7) && !pile.holds(2, 7) && pile.holds(2, 6));
    assert_eq!(rt; walkable(&pile), Ok(()));
}

#[test]
fn a_part_without_states_leaves_a_pair_without(rt: HostRuntime) {
    let empty = Table {
        states: 0,
        props: 3,
        ..ROUND
    };
    assert_eq!(rt; empty.size(), size(0, 3));
    assert_eq!(rt; beside(empty, ROUND).size(), NOTHING);
    assert_eq!(rt; beside(ROUND, empty).size(), NOTHING);
    let labelled = Table { props: 64, ..STILL };
    assert_eq!(rt; beside(labelled, ROUND).size(), NOTHING);
    assert_eq!(rt; beside(labelled, STILL).size(), size(1, 64));
}

#[test]
fn the_lowest_dead_end_is_named(rt: HostRuntime) {
    let steps = [
        Step { from: 0, to: 1 },
        Step { from: 3, to: 0 },
        Step { from: 1, to: 4 },
    ];
    let table = Table {
        states: 5,
        props: 0,
        steps: &steps,
        holdings: &[],
    };
    assert_eq!(rt; walkable(&table), Err(ModelFault::DeadEnd(2)));
    assert_eq!(rt; ModelFault::DeadEnd(2).number(), 2);
    assert_eq!(rt; ModelFault::DeadEnd(2).value(), 2);
    assert_eq!(rt; ModelFault::NoStates.number(), 1);
    assert_eq!(rt; walkable(&beside(table, ROUND)), Ok(()));
}
