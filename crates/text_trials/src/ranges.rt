//! Numbers out of their ranges.
//! Each test is a table of cases under its own name.
use super::calls::{SCALE, TABLE, all};

#[test]
fn a_scale_has_1_or_4(rt: HostRuntime) {
    let cases = [
        ("(scale 0)\n", "(fault text 16 1 8 0)\n"),
        ("(scale 2)\n", "(fault text 16 1 8 0)\n"),
        ("(scale 3)\n", "(fault text 16 1 8 0)\n"),
        ("(scale 5)\n", "(fault text 16 1 8 0)\n"),
        ("(scale 41)\n", "(fault text 16 1 8 0)\n"),
        ("(scale 9999)\n", "(fault text 16 1 8 0)\n"),
        ("(scale   2)\n", "(fault text 16 1 10 0)\n"),
        ("(scale 0002)\n", "(fault text 16 1 8 0)\n"),
    ];
    all(&rt, "", 16, &cases);
}

#[test]
fn the_numbers_of_a_model(rt: HostRuntime) {
    let cases = [
        ("(table 0 1)\n", "(fault text 16 2 8 0)\n"),
        ("(table 513 1)\n", "(fault text 16 2 8 0)\n"),
        ("(table 5120 1)\n", "(fault text 16 2 8 0)\n"),
        ("(table 2 65)\n", "(fault text 16 2 10 0)\n"),
        ("(table 512 65)\n", "(fault text 16 2 12 0)\n"),
        ("(table 513 65)\n", "(fault text 16 2 8 0)\n"),
        ("(table  513  0)\n", "(fault text 16 2 9 0)\n"),
        ("(pool 0 0)\n", "(fault text 16 2 7 0)\n"),
        ("(pool 5 0)\n", "(fault text 16 2 7 0)\n"),
        ("(pool 0005 0)\n", "(fault text 16 2 7 0)\n"),
        ("(pool 1 2)\n", "(fault text 16 2 9 0)\n"),
        ("(pool 4 2)\n", "(fault text 16 2 9 0)\n"),
        ("(pool 5 2)\n", "(fault text 16 2 7 0)\n"),
    ];
    all(&rt, SCALE, 16, &cases);
}

#[test]
fn states_and_propositions_of_the_table(rt: HostRuntime) {
    let cases = [
        ("(step 2 0)\n", "(fault text 16 3 7 0)\n"),
        ("(step 0 2)\n", "(fault text 16 3 9 0)\n"),
        ("(step 2 2)\n", "(fault text 16 3 7 0)\n"),
        ("(step 9999 0)\n", "(fault text 16 3 7 0)\n"),
        ("(step  0  2)\n", "(fault text 16 3 11 0)\n"),
        ("(holds 1 0)\n", "(fault text 16 3 8 0)\n"),
        ("(holds 0 2)\n", "(fault text 16 3 10 0)\n"),
        ("(holds 1 2)\n", "(fault text 16 3 8 0)\n"),
        ("(step 0 1)\n(holds 0 9)\n", "(fault text 16 4 10 0)\n"),
    ];
    let of_none = [("(holds 0 0)\n", "(fault text 16 3 8 0)\n")];
    all(&rt, TABLE, 16, &cases);
    all(&rt, "(scale 4)\n(table 2 0)\n", 16, &of_none);
}

#[test]
fn a_range_wins_over_a_later_form_fault(rt: HostRuntime) {
    let cases = [
        ("(scale 2", "(fault text 16 1 8 0)\n"),
        ("(scale 2x\n", "(fault text 16 1 8 0)\n"),
        ("(scale 2 )\n", "(fault text 16 1 8 0)\n"),
        ("(scale 2)\nx", "(fault text 16 1 8 0)\n"),
        ("(scale 4)\n(table 513", "(fault text 16 2 8 0)\n"),
        ("(scale 4)\n(table 513x", "(fault text 16 2 8 0)\n"),
        ("(scale 4)\n(table 0)\n", "(fault text 16 2 8 0)\n"),
        ("(scale 4)\n(pool 5\n", "(fault text 16 2 7 0)\n"),
        ("(scale 4)\n(table 2 1)\n(step 2", "(fault text 16 3 7 0)\n"),
        (
            "(scale 4)\n(table 2 1)\n(step 2y 0)\n",
            "(fault text 16 3 7 0)\n",
        ),
        (
            "(scale 4)\n(table 2 1)\n(step 0 2 2)\n",
            "(fault text 16 3 9 0)\n",
        ),
        (
            "(scale 4)\n(table 2 1)\n(holds 1(\n",
            "(fault text 16 3 8 0)\n",
        ),
        (
            "(scale 4)\n(table 2 1)\n(step 2 0)\n(oops\n",
            "(fault text 16 3 7 0)\n",
        ),
    ];
    all(&rt, "", 16, &cases);
}

#[test]
fn an_earlier_form_fault_wins_over_a_range(rt: HostRuntime) {
    let cases = [
        ("(skale 2)\n", "(fault text 15 1 3 0)\n"),
        ("(scale 4))\n(table 513 0)\n", "(fault text 15 1 10 0)\n"),
        (
            "(scale 4)\n(table 2 1)\n(stop 0 1)\n(step 2 0)\n",
            "(fault text 15 3 4 0)\n",
        ),
        (
            "(scale 4)\n(table 2 1)\n(step x 2)\n",
            "(fault text 15 3 7 0)\n",
        ),
        (
            "(scale 4)\n(table 2 1)\n(step 0 1 2)\n",
            "(fault text 15 3 10 0)\n",
        ),
    ];
    all(&rt, "", 15, &cases);
}
