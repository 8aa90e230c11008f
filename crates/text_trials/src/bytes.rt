//! Bytes that fit nowhere, and the lengths of the text and of the buffer.
use super::calls::{MARK, ROUND, Text, add, add_bytes, lists, noted, repeated};
use listing::listing::list;
use std::process::Abort;

/// After the head and what follows it, each byte but the lawful ones is the fault's place, whatever comes then.
fn only(rt: &impl Abort, lawful: &str, head: &str, more: &str, listing: &str) {
    for b in (0..=255u8).filter(|b| !lawful.as_bytes().contains(b)) {
        let mut text = Text::new();
        add(&mut text, head);
        add(&mut text, more);
        add_bytes(&mut text, &[b]);
        add(&mut text, "4 (p 0)\n");
        noted(rt, b, &text, 15, listing);
    }
}

#[test]
fn any_byte_in_the_first_lines(rt: HostRuntime) {
    only(&rt, "(", "", "", "(fault text 15 1 1 0)\n");
    only(&rt, "s", "(", "", "(fault text 15 1 2 0)\n");
    only(&rt, " ", "(scale", "", "(fault text 15 1 7 0)\n");
    only(&rt, " 0123456789", "(scale ", "", "(fault text 15 1 8 0)\n");
    only(
        &rt,
        ")0123456789",
        "(scale 4",
        "",
        "(fault text 15 1 9 0)\n",
    );
    only(&rt, "\n", "(scale 4)", "", "(fault text 15 1 10 0)\n");
    only(&rt, "(", "(scale 4)\n", "", "(fault text 15 2 1 0)\n");
    only(&rt, "tp", "(scale 4)\n(", "", "(fault text 15 2 2 0)\n");
}

#[test]
fn any_byte_in_later_lines(rt: HostRuntime) {
    only(&rt, "(", ROUND, "", "(fault text 15 6 1 0)\n");
    only(&rt, "sha", ROUND, "(", "(fault text 15 6 2 0)\n");
    only(
        &rt,
        " 0123456789",
        ROUND,
        "(step ",
        "(fault text 15 6 7 0)\n",
    );
    only(&rt, " (", ROUND, "(ask 0 ", "(fault text 15 6 8 0)\n");
    only(&rt, "EAoanip", ROUND, "(ask 0 (", "(fault text 15 6 9 0)\n");
    only(&rt, "XFGUW", ROUND, "(ask 0 (A", "(fault text 15 6 10 0)\n");
    only(
        &rt,
        ")0123456789",
        ROUND,
        "(ask 0 (p 0",
        "(fault text 15 6 12 0)\n",
    );
    only(
        &rt,
        "a",
        ROUND,
        "(ask 0 (p 0))\n(",
        "(fault text 15 7 2 0)\n",
    );
}

#[test]
fn a_text_has_16384_bytes(rt: HostRuntime) {
    let end = "4)\n(pool 1 0)\n(ask 0 (p 1))\n";
    let at = repeated(&["(scale"], " ", 16350, end);
    assert_eq!(rt; at.len(), 16384);
    lists(&rt, &at, 0, "(degree 0 0 1111)\n");
    let past = repeated(&["(scale"], " ", 16351, end);
    assert_eq!(rt; past.len(), 16385);
    lists(&rt, &past, 14, "(fault text 14 1 1 0)\n");
    let cut = repeated(&["(scale"], " ", 16378, "");
    assert_eq!(rt; cut.len(), 16384);
    lists(&rt, &cut, 15, "(fault text 15 1 16385 0)\n");
    let long = repeated(&["(scale"], " ", 16378, "x");
    lists(&rt, &long, 14, "(fault text 14 1 1 0)\n");
    lists(&rt, &[b'\n'; 16384], 15, "(fault text 15 1 1 0)\n");
    lists(&rt, &[b'\n'; 16385], 14, "(fault text 14 1 1 0)\n");
    lists(&rt, &[0; 20000], 14, "(fault text 14 1 1 0)\n");
}

/// In a buffer of so many bytes nothing is written.
fn refused(rt: &impl Abort, text: &[u8], size: usize) {
    let mut buffer = [MARK; 256];
    assert!(rt; size < 256);
    let listed = list(text, &mut buffer[..size]);
    assert_eq!(rt; listed.number, 18);
    assert_eq!(rt; listed.written, 0);
    assert_eq!(rt; buffer, [MARK; 256]);
}

#[test]
fn a_buffer_below_256_bytes_is_refused_first(rt: HostRuntime) {
    refused(&rt, b"(scale 1)\n(pool 1 0)\n(ask 0 (p 1))\n", 255);
    refused(&rt, b"(scale 1)\n(pool 1 0)\n", 255);
    refused(&rt, b"(scale 2)\n", 1);
    refused(&rt, b"(scale 1)\n(table 1 0)\n", 128);
    refused(&rt, b"", 0);
    refused(&rt, &[0; 16385], 255);
}

#[test]
fn a_buffer_of_256_bytes_is_enough(rt: HostRuntime) {
    let mut buffer = [MARK; 256];
    let listed = list(b"(scale 1)\n(pool 1 0)\n(ask 0 (p 1))\n", &mut buffer);
    assert_eq!(rt; listed.number, 0);
    assert_eq!(rt; listed.written, 15);
    assert_eq!(rt; &buffer[0..15], b"(degree 0 0 1)\n".as_slice());
    assert!(rt; buffer[15..].iter().all(|&b| b == MARK));
    let again = list(b"(", &mut buffer);
    assert_eq!(rt; again.number, 15);
    assert_eq!(rt; again.written, 22);
    assert_eq!(rt; &buffer[0..22], b"(fault text 15 1 2 0)\n".as_slice());
}
