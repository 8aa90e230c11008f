//! Satisfaction sets worked out by hand.
use super::tables::{ROUND, STAYING, pool};
use engine::operands::Operands;
use engine::operator::Operator;
use engine::satisfy::satisfy;
use engine::sets::StateSet;
use model::interface::Model;
use scale::reading::Reading;

/// The states where proposition 0 holds, or where it does not.
fn where_p0<M: Model>(model: &M, holds: bool) -> StateSet {
    StateSet::by(model.states(), false, |s| model.holds(0, s) == holds)
}

/// The states of G over proposition 0, or its opposite, as a number in binary, state 0 first from the right, and how
/// many they are.
fn globally<M: Model>(model: &M, some: bool, reading: Reading, holds: bool) -> (u32, usize) {
    let none = StateSet::of(false);
    let set = satisfy(
        model,
        some,
        Operator::Globally,
        reading,
        Operands {
            left: &where_p0(model, holds),
            right: &none,
        },
    );
    let n = model.states();
    let bits = (0..n.min(32))
        .filter(|&s| set.has(s))
        .fold(0u32, |bits, s| bits | 1 << s);
    (bits, (0..n).filter(|&s| set.has(s)).count())
}

#[test]
fn levels_of_ag_on_three_states(rt: HostRuntime) {
    assert_eq!(rt; globally(&STAYING, false, Reading::Always, true).0, 0b100);
    assert_eq!(rt;
        globally(&STAYING, false, Reading::EventuallyAlways, true).0,
        0b111
    );
    assert_eq!(rt;
        globally(&STAYING, false, Reading::InfinitelyOften, true).0,
        0b111
    );
    assert_eq!(rt; globally(&STAYING, false, Reading::Sometime, true).0, 0b111);
    assert_eq!(rt; globally(&STAYING, true, Reading::Always, true).0, 0b101);
}

#[test]
fn levels_of_ag_on_two_states(rt: HostRuntime) {
    assert_eq!(rt; globally(&ROUND, false, Reading::Always, true).0, 0);
    assert_eq!(rt;
        globally(&ROUND, false, Reading::EventuallyAlways, true).0,
        0
    );
    assert_eq!(rt;
        globally(&ROUND, false, Reading::InfinitelyOften, true).0,
        0b11
    );
    assert_eq!(rt; globally(&ROUND, false, Reading::Sometime, true).0, 0b11);
}

#[test]
fn no_torn_frame_in_six_buffers(rt: HostRuntime) {
    let pool = pool(6, 0);
    assert_eq!(rt;
        globally(&pool, false, Reading::Sometime, false).1,
        729,
        "3^6 states have no torn frame"
    );
    assert_eq!(rt;
        globally(&pool, false, Reading::InfinitelyOften, false).1,
        0
    );
    assert_eq!(rt;
        globally(&pool, false, Reading::EventuallyAlways, false).1,
        0
    );
    assert_eq!(rt; globally(&pool, true, Reading::Always, false).1, 729);
    assert_eq!(rt;
        globally(&pool, true, Reading::EventuallyAlways, false).1,
        4096
    );
}
