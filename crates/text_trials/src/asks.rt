//! Refusals of the model and of asks, and which refusal comes first.
//! Each test is a table of cases under its own name.
use super::calls::{POOL, ROUND, SCALE, TABLE, all};

#[test]
fn a_state_without_a_step(rt: HostRuntime) {
    let cases = [
        ("(table 1 0)\n", "(fault model 2 2 1 0)\n"),
        (
            "(table 3 1)\n(step 0 1)\n(step 1 0)\n",
            "(fault model 2 2 1 2)\n",
        ),
        (
            "(table 3 1)\n(step 0 1)\n(step 2 0)\n",
            "(fault model 2 2 1 1)\n",
        ),
        ("(table 3 1)\n(step 2 0)\n", "(fault model 2 2 1 0)\n"),
        ("(table 512 0)\n(step 0 511)\n", "(fault model 2 2 1 1)\n"),
        (
            "(table 2 1)\n(step 0 1)\n(ask 0 (p 0))\n",
            "(fault model 2 2 1 1)\n",
        ),
    ];
    all(&rt, SCALE, 2, &cases);
}

#[test]
fn no_such_proposition(rt: HostRuntime) {
    let of_table = [
        ("(ask 0 (p 1))\n", "(fault sheet 6 6 1 0)\n"),
        ("(ask 0 (p 255))\n", "(fault sheet 6 6 1 0)\n"),
        ("(ask 0 (p 256))\n", "(fault sheet 6 6 1 0)\n"),
        ("(ask 0 (p 9999))\n", "(fault sheet 6 6 1 0)\n"),
        ("(ask 0 (or (p 0) (AG (p 1))))\n", "(fault sheet 6 6 1 0)\n"),
    ];
    let of_pool = [
        ("(ask 0 (p 2))\n", "(fault sheet 6 3 1 0)\n"),
        ("(ask 0 (p 1))\n(ask 1 (p 2))\n", "(fault sheet 6 4 1 0)\n"),
    ];
    let of_none = [("(step 0 0)\n(ask 0 (p 0))\n", "(fault sheet 6 4 1 0)\n")];
    all(&rt, ROUND, 6, &of_table);
    all(&rt, POOL, 6, &of_pool);
    all(&rt, "(scale 4)\n(table 1 0)\n", 6, &of_none);
}

#[test]
fn no_such_state(rt: HostRuntime) {
    let of_table = [
        ("(ask 2 (p 0))\n", "(fault sheet 8 6 1 0)\n"),
        ("(ask 256 (p 0))\n", "(fault sheet 8 6 1 0)\n"),
        ("(ask 9999 (p 0))\n", "(fault sheet 8 6 1 0)\n"),
    ];
    let of_pool = [("(ask 3 (p 0))\n(ask 4 (p 0))\n", "(fault sheet 8 4 1 0)\n")];
    let of_four = [("(ask 256 (p 0))\n", "(fault sheet 8 3 1 0)\n")];
    all(&rt, ROUND, 8, &of_table);
    all(&rt, POOL, 8, &of_pool);
    all(&rt, "(scale 1)\n(pool 4 0)\n", 8, &of_four);
}

#[test]
fn a_late_ask_that_is_refused_leaves_its_fault_alone(rt: HostRuntime) {
    let cases = [
        ("(ask 0 (p 0))\n(ask 2 (p 0))\n", "(fault sheet 8 7 1 0)\n"),
        (
            "(ask 0 (p 0))\n(ask 1 (p 0))\n(ask 2 (AG (p 0)))\n",
            "(fault sheet 8 8 1 0)\n",
        ),
        (
            "(ask 0 (p 0))\n(ask 2 (p 0))\n(ask 0 (p 1))\n",
            "(fault sheet 8 7 1 0)\n",
        ),
    ];
    all(&rt, ROUND, 8, &cases);
}

#[test]
fn asks_are_refused_in_their_order_and_rows_before_states(rt: HostRuntime) {
    let cases = [
        ("(ask 2 (p 1))\n", "(fault sheet 6 6 1 0)\n"),
        ("(ask 0 (p 1))\n(ask 2 (p 0))\n", "(fault sheet 6 6 1 0)\n"),
        (
            "(ask 0 (p 0))\n(ask 0 (p 1))\n(ask 2 (p 0))\n",
            "(fault sheet 6 7 1 0)\n",
        ),
    ];
    all(&rt, ROUND, 6, &cases);
}

#[test]
fn a_model_is_refused_before_its_asks(rt: HostRuntime) {
    let cases = [
        ("(step 0 1)\n(ask 0 (p 1))\n", "(fault model 2 2 1 1)\n"),
        ("(step 0 1)\n(ask 2 (p 0))\n", "(fault model 2 2 1 1)\n"),
    ];
    all(&rt, TABLE, 2, &cases);
}

#[test]
fn a_text_is_refused_before_its_model_and_asks(rt: HostRuntime) {
    let form = [
        ("(step 0 1)\n(ask 0 (p 0)\n", "(fault text 15 4 13 0)\n"),
        ("(ask 2 (p 1))\n(", "(fault text 15 4 2 0)\n"),
    ];
    let range = [
        ("(step 0 1)\n(holds 1 0)\n", "(fault text 16 4 8 0)\n"),
        ("(step 0 2)\n(ask 2 (p 1))\n", "(fault text 16 3 9 0)\n"),
    ];
    let later = [
        ("(ask 0 (p 1))\n(ask 0 (p 0)\n", "(fault text 15 7 13 0)\n"),
        (
            "(ask 2 (p 0))\n(ask 0 (p 0)) \n",
            "(fault text 15 7 14 0)\n",
        ),
    ];
    all(&rt, TABLE, 15, &form);
    all(&rt, TABLE, 16, &range);
    all(&rt, ROUND, 15, &later);
}
