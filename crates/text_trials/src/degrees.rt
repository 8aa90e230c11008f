//! Degrees.
use super::calls::{POOL, ROUND, Text, add, all, noted};
use arrayvec::ArrayString;
use std::fmt::Write as _;
use std::io::Write as _;
use std::process::Abort;

/// Two states by turns, the proposition in the first, on the scale of one level.
const BOOLEAN: &str = "(scale 1)\n(table 2 1)\n(step 0 1)\n(step 1 0)\n(holds 0 0)\n";

/// A state that may be left for one without the proposition, from which it holds for good.
const FORK: &str =
    "(scale 4)\n(table 3 1)\n(step 0 0)\n(step 0 1)\n(step 1 2)\n(step 2 2)\n(holds 0 0)\n(holds 0 2)\n";

/// Asks a formula at the first states, one after another.
fn degrees(rt: &impl Abort, head: &str, formula: &str, each: &[&str]) {
    let mut text = Text::new();
    let mut listing: ArrayString<256> = ArrayString::new();
    add(&mut text, head);
    for (state, degree) in each.iter().enumerate() {
        let _fits = writeln!(text, "(ask {state} {formula})");
        let _fits = writeln!(listing, "(degree {state} {state} {degree})");
    }
    noted(rt, formula, &text, 0, &listing);
}

#[test]
fn no_asks(rt: HostRuntime) {
    all(&rt, ROUND, 0, &[("", "")]);
    all(&rt, BOOLEAN, 0, &[("", "")]);
    all(&rt, POOL, 0, &[("", "")]);
    all(&rt, "(scale 1)\n(pool 4 1)\n", 0, &[("", "")]);
}

#[test]
fn two_states_by_turns(rt: HostRuntime) {
    degrees(&rt, ROUND, "(p 0)", &["1111", "0000"]);
    degrees(&rt, ROUND, "(not (p 0))", &["0000", "1111"]);
    degrees(&rt, ROUND, "(or (p 0) (EX (p 0)))", &["1111", "1111"]);
    degrees(&rt, ROUND, "(and (p 0) (EX (p 0)))", &["0000", "0000"]);
    degrees(&rt, ROUND, "(EX (p 0))", &["0000", "1111"]);
    degrees(&rt, ROUND, "(AX (p 0))", &["0000", "1111"]);
    degrees(&rt, ROUND, "(EF (p 0))", &["1111", "1111"]);
    degrees(&rt, ROUND, "(AF (p 0))", &["1111", "1111"]);
    degrees(&rt, ROUND, "(EG (p 0))", &["0011", "0011"]);
    degrees(&rt, ROUND, "(AG (p 0))", &["0011", "0011"]);
    degrees(&rt, ROUND, "(EU (p 0) (p 0))", &["1111", "0000"]);
    degrees(&rt, ROUND, "(AU (p 0) (p 0))", &["1111", "0000"]);
    degrees(&rt, ROUND, "(EW (p 0) (p 0))", &["1111", "0111"]);
    degrees(&rt, ROUND, "(AW (p 0) (p 0))", &["1111", "0111"]);
}

#[test]
fn an_implication_compares(rt: HostRuntime) {
    let imp = "(imp (AG (p 0)) (EX (p 0)))";
    let not_or = "(or (not (AG (p 0))) (EX (p 0)))";
    degrees(&rt, ROUND, imp, &["0000", "1111"]);
    degrees(&rt, ROUND, not_or, &["1111", "1111"]);
    degrees(&rt, ROUND, "(imp (p 0) (AG (p 0)))", &["0011", "1111"]);
    degrees(&rt, ROUND, "(imp (AG (p 0)) (p 0))", &["1111", "0000"]);
    degrees(&rt, BOOLEAN, imp, &["1", "1"]);
    degrees(&rt, BOOLEAN, not_or, &["1", "1"]);
    degrees(&rt, BOOLEAN, "(AG (p 0))", &["0", "0"]);
    degrees(&rt, BOOLEAN, "(AX (p 0))", &["0", "1"]);
}

#[test]
fn where_the_quantifiers_differ(rt: HostRuntime) {
    degrees(&rt, FORK, "(AG (p 0))", &["0111", "0111", "1111"]);
    degrees(&rt, FORK, "(EG (p 0))", &["1111", "0111", "1111"]);
    degrees(&rt, FORK, "(AX (p 0))", &["0000", "1111", "1111"]);
    degrees(&rt, FORK, "(EX (p 0))", &["1111", "1111", "1111"]);
    degrees(&rt, FORK, "(AF (not (p 0)))", &["0000", "1111", "0000"]);
    degrees(&rt, FORK, "(EF (not (p 0)))", &["1111", "1111", "0000"]);
    degrees(
        &rt,
        FORK,
        "(AU (p 0) (not (p 0)))",
        &["0000", "1111", "0000"],
    );
    degrees(
        &rt,
        FORK,
        "(EU (p 0) (not (p 0)))",
        &["1111", "1111", "0000"],
    );
    degrees(
        &rt,
        FORK,
        "(AU (not (p 0)) (p 0))",
        &["1111", "1111", "1111"],
    );
    degrees(
        &rt,
        FORK,
        "(AW (p 0) (not (p 0)))",
        &["1111", "1111", "1111"],
    );
    degrees(
        &rt,
        FORK,
        "(AW (not (p 0)) (AG (p 0)))",
        &["0111", "1111", "1111"],
    );
    degrees(
        &rt,
        FORK,
        "(EW (not (p 0)) (AG (p 0)))",
        &["0111", "1111", "1111"],
    );
}

#[test]
fn torn_frames_in_pools(rt: HostRuntime) {
    let never = "(AG (not (p 0)))";
    let guarded = "(scale 4)\n(pool 1 1)\n";
    let two = "(scale 4)\n(pool 2 0)\n";
    let four = "(scale 4)\n(pool 4 1)\n";
    degrees(&rt, POOL, never, &["0011", "0011", "0011", "0011"]);
    degrees(&rt, guarded, never, &["1111", "1111", "1111", "0111"]);
    degrees(&rt, two, never, &["0001", "0001", "0001", "0000"]);
    degrees(&rt, two, "(p 1)", &["1111", "1111", "1111", "1111"]);
    all(
        &rt,
        four,
        0,
        &[
            ("(ask 255 (p 0))\n", "(degree 0 255 1111)\n"),
            ("(ask 255 (p 1))\n", "(degree 0 255 0000)\n"),
            ("(ask 192 (p 1))\n", "(degree 0 192 1111)\n"),
        ],
    );
}

#[test]
fn more_spaces_and_zeros(rt: HostRuntime) {
    let cases = [
        (
            "(scale 4)\n(table  2   1)\n(step  0  1)\n(step   1 0)\n(holds  0   0)\n(ask   0  (AG    (p   0)))\n",
            "(degree 0 0 0011)\n",
        ),
        (
            "(scale    4)\n(pool   1  0)\n(ask 3 (or  (p  0)   (p 1)))\n",
            "(degree 0 3 1111)\n",
        ),
        (
            "(scale 0004)\n(table 0002 001)\n(step 00 0001)\n(step 0001 000)\n(holds 0000 00)\n(ask 0001 (EX (p 0000)))\n",
            "(degree 0 1 1111)\n",
        ),
        (
            "(scale 01)\n(pool 0001 0000)\n(ask 003 (p 00))\n",
            "(degree 0 3 1)\n",
        ),
    ];
    all(&rt, "", 0, &cases);
}

#[test]
fn lines_of_a_table_in_any_order_and_again(rt: HostRuntime) {
    let cases = [
        (
            "(holds 0 0)\n(step 1 0)\n(step 0 1)\n(ask 0 (AG (p 0)))\n",
            "(degree 0 0 0011)\n",
        ),
        (
            "(step 0 1)\n(holds 0 0)\n(step 0 1)\n(holds 0 0)\n(step 1 0)\n(ask 0 (AG (p 0)))\n",
            "(degree 0 0 0011)\n",
        ),
    ];
    all(&rt, "(scale 4)\n(table 2 1)\n", 0, &cases);
}
