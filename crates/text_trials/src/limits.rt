//! Limits: at each, and one past it. Each limit is a test under its own name.
use super::calls::{ROUND, Text, add, add_times, all, lists, repeated};
use std::io::Write;

/// One state with a proposition, so many steps and holdings, and an end.
fn many(steps: usize, holdings: usize, end: &str) -> Text {
    let mut text = Text::new();
    add(&mut text, "(scale 1)\n(table 1 1)\n");
    add_times(&mut text, "(step 0 0)\n", steps);
    add_times(&mut text, "(holds 0 0)\n", holdings);
    add(&mut text, end);
    text
}

#[test]
fn a_table_has_1024_steps(rt: HostRuntime) {
    let at = many(1024, 1, "(ask 0 (AG (p 0)))\n");
    lists(&rt, &at, 0, "(degree 0 0 1)\n");
    let past = many(1025, 0, "");
    lists(&rt, &past, 17, "(fault text 17 1027 1 0)\n");
    let later = many(1024, 1, "(step 0 0)\n");
    lists(&rt, &later, 17, "(fault text 17 1028 1 0)\n");
    let asked = many(1024, 0, "(ask 0 (p 1))\n");
    lists(&rt, &asked, 6, "(fault sheet 6 1027 1 0)\n");
}

#[test]
fn a_table_has_1024_holdings(rt: HostRuntime) {
    let at = many(1, 1024, "(ask 0 (p 0))\n");
    lists(&rt, &at, 0, "(degree 0 0 1)\n");
    let past = many(1, 1025, "");
    lists(&rt, &past, 17, "(fault text 17 1028 1 0)\n");
    let unwalked = many(0, 1025, "");
    lists(&rt, &unwalked, 17, "(fault text 17 1027 1 0)\n");
    let asked = many(1, 1024, "(ask 1 (p 0))\n");
    lists(&rt, &asked, 8, "(fault sheet 8 1028 1 0)\n");
}

#[test]
fn a_bracket_too_many_counts_after_its_word_and_a_space(rt: HostRuntime) {
    let word = many(1024, 0, "(step");
    lists(&rt, &word, 15, "(fault text 15 1027 6 0)\n");
    let other = many(1024, 0, "(stop 0 0)\n");
    lists(&rt, &other, 15, "(fault text 15 1027 4 0)\n");
    let space = many(1024, 0, "(step ");
    lists(&rt, &space, 17, "(fault text 17 1027 1 0)\n");
    let range = many(1024, 0, "(step 9 0)\n");
    lists(&rt, &range, 17, "(fault text 17 1027 1 0)\n");
    let byte = many(1, 1024, "(holds\t0 0)\n");
    lists(&rt, &byte, 15, "(fault text 15 1028 7 0)\n");
    let number = many(1, 1024, "(holds 1 0)\n");
    lists(&rt, &number, 17, "(fault text 17 1028 1 0)\n");
}

/// 512 states, each of the first so many with a step to the last, where the last of 64 propositions holds, and an end.
fn wide(states: u16, end: &str) -> Text {
    let mut text = Text::new();
    add(&mut text, "(scale 4)\n(table 512 64)\n(holds 63 511)\n");
    for s in 0..states {
        let _fits = writeln!(text, "(step {s:03} 511)");
    }
    add(&mut text, end);
    text
}

#[test]
fn a_table_has_512_states_and_64_propositions(rt: HostRuntime) {
    let at = wide(
        512,
        "(ask 511 (p 63))\n(ask 510 (p 63))\n(ask 0 (EX (p 63)))\n(ask 0 (EX (p 62)))\n",
    );
    let degrees =
        "(degree 0 511 1111)\n(degree 1 510 0000)\n(degree 2 0 1111)\n(degree 3 0 0000)\n";
    lists(&rt, &at, 0, degrees);
    let state = wide(512, "(ask 512 (p 63))\n");
    lists(&rt, &state, 8, "(fault sheet 8 516 1 0)\n");
    let proposition = wide(512, "(ask 511 (p 64))\n");
    lists(&rt, &proposition, 6, "(fault sheet 6 516 1 0)\n");
    let dead_end = wide(511, "(ask 0 (p 0))\n");
    lists(&rt, &dead_end, 2, "(fault model 2 2 1 511)\n");
}

#[test]
fn the_numbers_of_the_widest_table_end_there(rt: HostRuntime) {
    let cases = [
        ("(step 512 0)\n", "(fault text 16 3 7 0)\n"),
        ("(step 0 512)\n", "(fault text 16 3 9 0)\n"),
        ("(step 511 511)\n(holds 64 0)\n", "(fault text 16 4 8 0)\n"),
        (
            "(holds 63 511)\n(holds 63 512)\n",
            "(fault text 16 4 11 0)\n",
        ),
    ];
    all(&rt, "(scale 4)\n(table 512 64)\n", 16, &cases);
}

#[test]
fn a_text_has_8_asks(rt: HostRuntime) {
    let ask = "(ask 0 (p 0))\n";
    let at = repeated(&[ROUND], ask, 7, "(ask 1 (p 0))\n");
    let degrees =
        "(degree 0 0 1111)\n(degree 1 0 1111)\n(degree 2 0 1111)\n(degree 3 0 1111)\n(degree 4 0 1111)\n(degree 5 0 1111)\n(degree 6 0 1111)\n(degree 7 1 0000)\n";
    lists(&rt, &at, 0, degrees);
    let past = repeated(&[ROUND], ask, 9, "");
    lists(&rt, &past, 17, "(fault text 17 14 1 0)\n");
    let space = repeated(&[ROUND], ask, 8, "(ask ");
    lists(&rt, &space, 17, "(fault text 17 14 1 0)\n");
    let word = repeated(&[ROUND], ask, 8, "(ask");
    lists(&rt, &word, 15, "(fault text 15 14 5 0)\n");
    let refused = repeated(&[ROUND], ask, 7, "(ask 2 (p 0))\n");
    lists(&rt, &refused, 8, "(fault sheet 8 13 1 0)\n");
}

#[test]
fn a_text_has_32_rows_in_all_its_asks(rt: HostRuntime) {
    let ask = "(ask 1 (not (not (not (p 0)))))\n";
    let at = repeated(&[ROUND], ask, 8, "");
    let degrees =
        "(degree 0 1 1111)\n(degree 1 1 1111)\n(degree 2 1 1111)\n(degree 3 1 1111)\n(degree 4 1 1111)\n(degree 5 1 1111)\n(degree 6 1 1111)\n(degree 7 1 1111)\n";
    lists(&rt, &at, 0, degrees);
    let past = repeated(&[ROUND], ask, 7, "(ask 1 (not (not (not (not (p 0))))))\n");
    lists(&rt, &past, 17, "(fault text 17 13 28 0)\n");
    let cut = repeated(&[ROUND], ask, 7, "(ask 1 (not (not (not (not (");
    lists(&rt, &cut, 17, "(fault text 17 13 28 0)\n");
    let earlier = repeated(&[ROUND], ask, 7, "(ask 1 (not (not (not (nor (p 0))))))\n");
    lists(&rt, &earlier, 15, "(fault text 15 13 26 0)\n");
}

#[test]
fn a_text_has_32_rows_in_few_asks(rt: HostRuntime) {
    let either = "(or (p 0) ";
    let at = repeated(
        &[ROUND, "(ask 1 (p 0))\n(ask 0 "],
        either,
        15,
        "(p 0)))))))))))))))))\n",
    );
    lists(&rt, &at, 0, "(degree 0 1 0000)\n(degree 1 0 1111)\n");
    let past = repeated(
        &[ROUND, "(ask 0 (not (p 0)))\n(ask 0 "],
        either,
        15,
        "(p 0)",
    );
    lists(&rt, &past, 17, "(fault text 17 7 158 0)\n");
    let one = repeated(
        &[ROUND, "(ask 0 (or (not (p 0)) "],
        either,
        14,
        "(p 0)))))))))))))))))\n",
    );
    lists(&rt, &one, 0, "(degree 0 0 1111)\n");
    let too_many = repeated(
        &[ROUND, "(ask 0 (or (not (not (p 0))) "],
        either,
        14,
        "(p 0)",
    );
    lists(&rt, &too_many, 17, "(fault text 17 6 170 0)\n");
}

#[test]
fn a_formula_has_16_brackets_open(rt: HostRuntime) {
    let at = repeated(&[ROUND, "(ask 0 "], "(not ", 15, "(p 0)))))))))))))))))\n");
    lists(&rt, &at, 0, "(degree 0 0 0000)\n");
    let past = repeated(&[ROUND, "(ask 0 "], "(not ", 16, "(p 0))))))))))))))))))\n");
    lists(&rt, &past, 17, "(fault text 17 6 88 0)\n");
    let cut = repeated(&[ROUND, "(ask 0 "], "(AG ", 16, "(");
    lists(&rt, &cut, 17, "(fault text 17 6 72 0)\n");
    let no_bracket = repeated(&[ROUND, "(ask 0 "], "(AG ", 16, "p");
    lists(&rt, &no_bracket, 15, "(fault text 15 6 72 0)\n");
    let second = repeated(&[ROUND, "(ask 0 "], "(and (p 0) ", 16, "");
    lists(&rt, &second, 17, "(fault text 17 6 178 0)\n");
}
