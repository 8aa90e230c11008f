//! Forms: a byte at which no lawful line goes on, or a text that ends early.
//! Each test is a table of cases under its own name.
use super::calls::{POOL, ROUND, SCALE, TABLE, all};

#[test]
fn a_scale_line_cut_short(rt: HostRuntime) {
    let cases = [
        ("", "(fault text 15 1 1 0)\n"),
        ("(", "(fault text 15 1 2 0)\n"),
        ("(s", "(fault text 15 1 3 0)\n"),
        ("(scal", "(fault text 15 1 6 0)\n"),
        ("(scale", "(fault text 15 1 7 0)\n"),
        ("(scale ", "(fault text 15 1 8 0)\n"),
        ("(scale   ", "(fault text 15 1 10 0)\n"),
        ("(scale 4", "(fault text 15 1 9 0)\n"),
        ("(scale 4)", "(fault text 15 1 10 0)\n"),
    ];
    all(&rt, "", 15, &cases);
}

#[test]
fn what_no_scale_line_has(rt: HostRuntime) {
    let cases = [
        ("\n", "(fault text 15 1 1 0)\n"),
        (" (scale 4)\n", "(fault text 15 1 1 0)\n"),
        ("scale 4)\n", "(fault text 15 1 1 0)\n"),
        ("( scale 4)\n", "(fault text 15 1 2 0)\n"),
        ("((scale 4)\n", "(fault text 15 1 2 0)\n"),
        ("(Scale 4)\n", "(fault text 15 1 2 0)\n"),
        ("(scala 4)\n", "(fault text 15 1 6 0)\n"),
        ("(scales 4)\n", "(fault text 15 1 7 0)\n"),
        ("(scale4)\n", "(fault text 15 1 7 0)\n"),
        ("(scale\t4)\n", "(fault text 15 1 7 0)\n"),
        ("(scale)\n", "(fault text 15 1 7 0)\n"),
        ("(scale -4)\n", "(fault text 15 1 8 0)\n"),
        ("(scale )\n", "(fault text 15 1 8 0)\n"),
        ("(scale 4 )\n", "(fault text 15 1 9 0)\n"),
        ("(scale 4x)\n", "(fault text 15 1 9 0)\n"),
        ("(scale 4) \n", "(fault text 15 1 10 0)\n"),
        ("(scale 4)\r\n", "(fault text 15 1 10 0)\n"),
        ("(scale 4)(table 2 1)\n", "(fault text 15 1 10 0)\n"),
        ("(table 2 1)\n", "(fault text 15 1 2 0)\n"),
        ("(pool 1 0)\n", "(fault text 15 1 2 0)\n"),
        ("(ask 0 (p 0))\n", "(fault text 15 1 2 0)\n"),
        ("(holds 0 0)\n", "(fault text 15 1 2 0)\n"),
        ("(step 0 0)\n", "(fault text 15 1 3 0)\n"),
    ];
    all(&rt, "", 15, &cases);
}

#[test]
fn a_model_line_cut_short(rt: HostRuntime) {
    let cases = [
        ("", "(fault text 15 2 1 0)\n"),
        ("(", "(fault text 15 2 2 0)\n"),
        ("(t", "(fault text 15 2 3 0)\n"),
        ("(table", "(fault text 15 2 7 0)\n"),
        ("(table ", "(fault text 15 2 8 0)\n"),
        ("(table 2", "(fault text 15 2 9 0)\n"),
        ("(table 2 ", "(fault text 15 2 10 0)\n"),
        ("(table 2 1", "(fault text 15 2 11 0)\n"),
        ("(table 2 1)", "(fault text 15 2 12 0)\n"),
        ("(p", "(fault text 15 2 3 0)\n"),
        ("(pool", "(fault text 15 2 6 0)\n"),
        ("(pool 1", "(fault text 15 2 8 0)\n"),
        ("(pool 1 ", "(fault text 15 2 9 0)\n"),
        ("(pool 1 0", "(fault text 15 2 10 0)\n"),
        ("(pool 1 0)", "(fault text 15 2 11 0)\n"),
    ];
    all(&rt, SCALE, 15, &cases);
}

#[test]
fn what_no_model_line_has(rt: HostRuntime) {
    let cases = [
        ("\n", "(fault text 15 2 1 0)\n"),
        ("(tale 2 1)\n", "(fault text 15 2 4 0)\n"),
        ("(tool 1 0)\n", "(fault text 15 2 3 0)\n"),
        ("(pole 1 0)\n", "(fault text 15 2 4 0)\n"),
        ("(tables 2 1)\n", "(fault text 15 2 7 0)\n"),
        ("(table2 1)\n", "(fault text 15 2 7 0)\n"),
        ("(table 2)\n", "(fault text 15 2 9 0)\n"),
        ("(table 2,1)\n", "(fault text 15 2 9 0)\n"),
        ("(table 2 )\n", "(fault text 15 2 10 0)\n"),
        ("(table 2 1 )\n", "(fault text 15 2 11 0)\n"),
        ("(table 2 1 1)\n", "(fault text 15 2 11 0)\n"),
        ("(table 2 1)\n)\n", "(fault text 15 3 1 0)\n"),
        ("(pool 1 )\n", "(fault text 15 2 9 0)\n"),
        ("(pool 1 0 )\n", "(fault text 15 2 10 0)\n"),
        ("(scale 4)\n", "(fault text 15 2 2 0)\n"),
        ("(step 0 0)\n", "(fault text 15 2 2 0)\n"),
        ("(holds 0 0)\n", "(fault text 15 2 2 0)\n"),
        ("(ask 0 (p 0))\n", "(fault text 15 2 2 0)\n"),
    ];
    all(&rt, SCALE, 15, &cases);
}

#[test]
fn a_step_or_holding_cut_short(rt: HostRuntime) {
    let cases = [
        ("(", "(fault text 15 3 2 0)\n"),
        ("(s", "(fault text 15 3 3 0)\n"),
        ("(step", "(fault text 15 3 6 0)\n"),
        ("(step ", "(fault text 15 3 7 0)\n"),
        ("(step 0", "(fault text 15 3 8 0)\n"),
        ("(step 0 ", "(fault text 15 3 9 0)\n"),
        ("(step 0 1", "(fault text 15 3 10 0)\n"),
        ("(step 0 1)", "(fault text 15 3 11 0)\n"),
        ("(h", "(fault text 15 3 3 0)\n"),
        ("(holds", "(fault text 15 3 7 0)\n"),
        ("(holds ", "(fault text 15 3 8 0)\n"),
        ("(holds 0", "(fault text 15 3 9 0)\n"),
        ("(holds 0 ", "(fault text 15 3 10 0)\n"),
        ("(holds 0 0", "(fault text 15 3 11 0)\n"),
        ("(holds 0 0)", "(fault text 15 3 12 0)\n"),
    ];
    all(&rt, TABLE, 15, &cases);
}

#[test]
fn what_no_body_line_has(rt: HostRuntime) {
    let cases = [
        ("\n", "(fault text 15 3 1 0)\n"),
        (" (step 0 1)\n", "(fault text 15 3 1 0)\n"),
        ("; steps\n", "(fault text 15 3 1 0)\n"),
        ("( step 0 1)\n", "(fault text 15 3 2 0)\n"),
        ("(stop 0 1)\n", "(fault text 15 3 4 0)\n"),
        ("(steps 0 1)\n", "(fault text 15 3 6 0)\n"),
        ("(hold 0 0)\n", "(fault text 15 3 6 0)\n"),
        ("(and 0 1)\n", "(fault text 15 3 3 0)\n"),
        ("(x)\n", "(fault text 15 3 2 0)\n"),
        ("(step 0)\n", "(fault text 15 3 8 0)\n"),
        ("(step 0 1 )\n", "(fault text 15 3 10 0)\n"),
        ("(step 0 1 1)\n", "(fault text 15 3 10 0)\n"),
        ("(step 0 1) \n", "(fault text 15 3 11 0)\n"),
        ("(step 0 1)(step 1 0)\n", "(fault text 15 3 11 0)\n"),
        ("(step 0 1)\n\n", "(fault text 15 4 1 0)\n"),
        ("(scale 4)\n", "(fault text 15 3 3 0)\n"),
        ("(table 2 1)\n", "(fault text 15 3 2 0)\n"),
        ("(pool 1 0)\n", "(fault text 15 3 2 0)\n"),
    ];
    all(&rt, TABLE, 15, &cases);
}

#[test]
fn an_ask_cut_short(rt: HostRuntime) {
    let cases = [
        ("(a", "(fault text 15 6 3 0)\n"),
        ("(ask", "(fault text 15 6 5 0)\n"),
        ("(ask ", "(fault text 15 6 6 0)\n"),
        ("(ask 0", "(fault text 15 6 7 0)\n"),
        ("(ask 0 ", "(fault text 15 6 8 0)\n"),
        ("(ask 0 (", "(fault text 15 6 9 0)\n"),
        ("(ask 0 (p", "(fault text 15 6 10 0)\n"),
        ("(ask 0 (p ", "(fault text 15 6 11 0)\n"),
        ("(ask 0 (p 0", "(fault text 15 6 12 0)\n"),
        ("(ask 0 (p 0)", "(fault text 15 6 13 0)\n"),
        ("(ask 0 (p 0))", "(fault text 15 6 14 0)\n"),
        ("(ask 0 (E", "(fault text 15 6 10 0)\n"),
        ("(ask 0 (EX", "(fault text 15 6 11 0)\n"),
        ("(ask 0 (and (p 0)", "(fault text 15 6 18 0)\n"),
        ("(ask 0 (and (p 0) ", "(fault text 15 6 19 0)\n"),
        ("(ask 0 (and (p 0) (p 0)", "(fault text 15 6 24 0)\n"),
    ];
    all(&rt, ROUND, 15, &cases);
}

#[test]
fn what_no_ask_has(rt: HostRuntime) {
    let cases = [
        ("(ask)\n", "(fault text 15 6 5 0)\n"),
        ("(ask (p 0))\n", "(fault text 15 6 6 0)\n"),
        ("(ask 0)\n", "(fault text 15 6 7 0)\n"),
        ("(ask 0(p 0))\n", "(fault text 15 6 7 0)\n"),
        ("(ask 0 p)\n", "(fault text 15 6 8 0)\n"),
        ("(ask 0 ())\n", "(fault text 15 6 9 0)\n"),
        ("(ask 0 ((p 0)))\n", "(fault text 15 6 9 0)\n"),
        ("(ask 0 ( p 0))\n", "(fault text 15 6 9 0)\n"),
        ("(ask 0 (p))\n", "(fault text 15 6 10 0)\n"),
        ("(ask 0 (p x))\n", "(fault text 15 6 11 0)\n"),
        ("(ask 0 (p 0 ))\n", "(fault text 15 6 12 0)\n"),
        ("(ask 0 (p 0) )\n", "(fault text 15 6 13 0)\n"),
        ("(ask 0 (p 0)))\n", "(fault text 15 6 14 0)\n"),
        ("(ask 0 (AG(p 0)))\n", "(fault text 15 6 11 0)\n"),
        ("(ask 0 (AG p))\n", "(fault text 15 6 12 0)\n"),
    ];
    all(&rt, ROUND, 15, &cases);
}

#[test]
fn operands_too_few_or_too_many(rt: HostRuntime) {
    let cases = [
        ("(ask 0 (and (p 0)))\n", "(fault text 15 6 18 0)\n"),
        ("(ask 0 (and (p 0)(p 0)))\n", "(fault text 15 6 18 0)\n"),
        (
            "(ask 0 (and (p 0) (p 0) (p 0)))\n",
            "(fault text 15 6 24 0)\n",
        ),
        ("(ask 0 (EU (p 0)))\n", "(fault text 15 6 17 0)\n"),
        ("(ask 0 (not (p 0) (p 0)))\n", "(fault text 15 6 18 0)\n"),
        ("(ask 0 (AG (p 0) (p 0)))\n", "(fault text 15 6 17 0)\n"),
        ("(ask 0 (p 0 0))\n", "(fault text 15 6 12 0)\n"),
    ];
    all(&rt, ROUND, 15, &cases);
}

#[test]
fn names_that_are_not_there(rt: HostRuntime) {
    let cases = [
        ("(ask 0 (xor (p 0) (p 0)))\n", "(fault text 15 6 9 0)\n"),
        ("(ask 0 (nor (p 0) (p 0)))\n", "(fault text 15 6 11 0)\n"),
        (
            "(ask 0 (implies (p 0) (p 0)))\n",
            "(fault text 15 6 12 0)\n",
        ),
        ("(ask 0 (prop 0))\n", "(fault text 15 6 10 0)\n"),
        ("(ask 0 (AY (p 0)))\n", "(fault text 15 6 10 0)\n"),
        ("(ask 0 (ER (p 0) (p 0)))\n", "(fault text 15 6 10 0)\n"),
        ("(ask 0 (ag (p 0)))\n", "(fault text 15 6 10 0)\n"),
        ("(ask 0 (G (p 0)))\n", "(fault text 15 6 9 0)\n"),
        ("(ask 0 (AGG (p 0)))\n", "(fault text 15 6 11 0)\n"),
        ("(ask 0 (or2 (p 0)))\n", "(fault text 15 6 11 0)\n"),
        ("(ask 0 (P 0))\n", "(fault text 15 6 9 0)\n"),
    ];
    all(&rt, ROUND, 15, &cases);
}

#[test]
fn nothing_but_asks_after_an_ask(rt: HostRuntime) {
    let cases = [
        ("(step 0 0)\n", "(fault text 15 7 2 0)\n"),
        ("(holds 0 0)\n", "(fault text 15 7 2 0)\n"),
        ("(scale 4)\n", "(fault text 15 7 2 0)\n"),
        ("(table 2 1)\n", "(fault text 15 7 2 0)\n"),
        ("(", "(fault text 15 7 2 0)\n"),
        ("\n", "(fault text 15 7 1 0)\n"),
        (" ", "(fault text 15 7 1 0)\n"),
    ];
    all(
        &rt,
        "(scale 4)\n(table 2 1)\n(step 0 1)\n(step 1 0)\n(holds 0 0)\n(ask 0 (p 0))\n",
        15,
        &cases,
    );
}

#[test]
fn a_pool_takes_asks_only(rt: HostRuntime) {
    let cases = [
        ("(step 0 0)\n", "(fault text 15 3 2 0)\n"),
        ("(holds 0 0)\n", "(fault text 15 3 2 0)\n"),
        ("(pool 1 0)\n", "(fault text 15 3 2 0)\n"),
        ("\n", "(fault text 15 3 1 0)\n"),
        ("(ask 0 (p 0))\n(step 0 0)\n", "(fault text 15 4 2 0)\n"),
    ];
    all(&rt, POOL, 15, &cases);
}

#[test]
fn a_fifth_digit(rt: HostRuntime) {
    let cases = [
        ("(scale 00004)\n", "(fault text 15 1 12 0)\n"),
        ("(scale 12345)\n", "(fault text 15 1 12 0)\n"),
        ("(scale 4)\n(table 00002 1)\n", "(fault text 15 2 12 0)\n"),
        ("(scale 4)\n(table 51300 1)\n", "(fault text 15 2 12 0)\n"),
        ("(scale 4)\n(table 2 00001)\n", "(fault text 15 2 14 0)\n"),
        ("(scale 4)\n(pool 00001 0)\n", "(fault text 15 2 11 0)\n"),
        (
            "(scale 4)\n(table 2 1)\n(step 00000 1)\n",
            "(fault text 15 3 11 0)\n",
        ),
        (
            "(scale 4)\n(table 2 1)\n(step 0 99999)\n",
            "(fault text 15 3 13 0)\n",
        ),
        (
            "(scale 4)\n(table 2 1)\n(holds 00000 0)\n",
            "(fault text 15 3 12 0)\n",
        ),
        (
            "(scale 4)\n(table 2 1)\n(step 0 1)\n(step 1 0)\n(holds 0 0)\n(ask 00000 (p 0))\n",
            "(fault text 15 6 10 0)\n",
        ),
        (
            "(scale 4)\n(table 2 1)\n(step 0 1)\n(step 1 0)\n(holds 0 0)\n(ask 0 (p 00000))\n",
            "(fault text 15 6 15 0)\n",
        ),
    ];
    all(&rt, "", 15, &cases);
}
