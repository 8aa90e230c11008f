//! How the tests make the call.
// A refusal goes by its number, as the listing call answers it; 0 is none.
use arrayvec::ArrayVec;
use listing::listing::list;
use std::fmt::Display;
use std::process::Abort;

/// The scale's line.
pub(crate) const SCALE: &str = "(scale 4)\n";

/// A table without lines of its own yet.
pub(crate) const TABLE: &str = "(scale 4)\n(table 2 1)\n";

/// Two states by turns, the proposition in the first.
pub(crate) const ROUND: &str = "(scale 4)\n(table 2 1)\n(step 0 1)\n(step 1 0)\n(holds 0 0)\n";

/// A pool of one buffer.
pub(crate) const POOL: &str = "(scale 4)\n(pool 1 0)\n";

/// What the buffer holds before the call.
pub(crate) const MARK: u8 = 7;

/// A text that a test puts together.
pub(crate) type Text = ArrayVec<u8, 20000>;

/// Makes the call in a buffer of marks, and checks the number, the listing and the marks after it.
pub(crate) fn lists(rt: &impl Abort, text: &[u8], number: u8, listing: &str) {
    noted(rt, "", text, number, listing);
}

/// As `lists`, with a note that a failure shows.
pub(crate) fn noted(
    rt: &impl Abort,
    note: impl Display + Drop,
    text: &[u8],
    number: u8,
    listing: &str,
) {
    let mut buffer = [MARK; 300];
    let listed = list(text, &mut buffer);
    let end = listed.written;
    assert_eq!(rt; &buffer[..end], listing.as_bytes(), "{note}");
    assert!(rt; buffer[end..].iter().all(|&b| b == MARK), "{note}");
    assert_eq!(rt; listed.number, number, "{note}");
}

/// Adds a piece to a text. One that does not fit is left out, and the listing then differs.
pub(crate) fn add(text: &mut Text, piece: &str) {
    add_bytes(text, piece.as_bytes());
}

/// Adds bytes to a text, as `add` does.
pub(crate) fn add_bytes(text: &mut Text, bytes: &[u8]) {
    let _fits = text.try_extend_from_slice(bytes);
}

/// Adds a piece so many times.
pub(crate) fn add_times(text: &mut Text, piece: &str, times: usize) {
    for _ in 0..times {
        add(text, piece);
    }
}

/// The heads, a piece so many times, and an end.
pub(crate) fn repeated(heads: &[&str], piece: &str, times: usize, end: &str) -> Text {
    let mut text = Text::new();
    for head in heads {
        add(&mut text, head);
    }
    add_times(&mut text, piece, times);
    add(&mut text, end);
    text
}

/// Checks the listing of each text, each after the same head.
pub(crate) fn all(rt: &impl Abort, head: &str, number: u8, cases: &[(&str, &str)]) {
    for (rest, listing) in cases {
        let mut text = Text::new();
        add(&mut text, head);
        add(&mut text, rest);
        noted(rt, *rest, &text, number, listing);
    }
}
