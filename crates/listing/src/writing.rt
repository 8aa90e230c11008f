//! Degrees and faults in bytes.
ghost use Rattle.std.specs.Prelude.{◌≡◌, ◌+◌, ◌<◌, ◌≤◌, ◌++◌, length, drop, decimal};
ghost use Rattle.arrayvec.specs.ArrayString.{array_string_len};
ghost use Rattle.listing.specs.Faults.{told, who};
ghost use Rattle.scale.specs.Digits.{written};
ghost use Rattle.listing.specs.Writing.{text_of, spaced, degree_line, degree_lines, fault_line};

use crate::answers::{Answer, Answers};
use crate::fault::TextFault;
use arrayvec::ArrayString;
use itoa::Buffer;
use scale::digits::digits;
use sheet::fault::SheetFault;

// `write!` answers a `Result`, and no clause says that it is `Ok` where there is room; so the parts are pushed.

/// Adds a space and a text.
fn put_text(out: &mut ArrayString<256>, text: &str)
    requires { array_string_len out.old + length (spaced text.now) ≤ 256 }
    ensures added { out.new.bytes ≡ out.old.bytes ++ spaced text.now }
    ensures long { array_string_len out.new ≡ array_string_len out.old + length (spaced text.now) }
{
    out.push_str(" ");
    out.push_str(text);
}

/// Adds a space and a number in decimal digits.
fn put_number(out: &mut ArrayString<256>, n: usize)
    requires { array_string_len out.old + 21 ≤ 256 }
    ensures added { out.new.bytes ≡ out.old.bytes ++ spaced (decimal n) }
    ensures long { array_string_len out.new ≡ array_string_len out.old + length (spaced (decimal n)) }
    ensures short { array_string_len out.new ≤ array_string_len out.old + 21 }
{
    put_text(out, Buffer::new().format(n));
}

/// The digits of a degree.
#[tactic(auto, using(crate::proofs::Puts::digits_short))]
fn digits_of(levels: u8, degree: u8) -> &'static str
    ensures text { result.now ≡ text_of (written levels degree) }
    ensures short { length result.now ≤ 4 }
{
    digits(levels, degree).unwrap_or("")
}

/// Adds the line of an answer, the `i`th.
#[tactic(auto, using(crate::proofs::Puts::one_figure, crate::proofs::Puts::five_figures))]
fn degree_line(out: &mut ArrayString<256>, levels: u8, i: usize, answer: Answer)
    requires { (array_string_len out.old + 56 ≤ 256) × (i < 10) }
    ensures added { out.new.bytes ≡ out.old.bytes ++ degree_line levels i answer }
    ensures short { array_string_len out.new ≤ array_string_len out.old + 22 }
{
    out.push_str("(degree");
    put_number(out, i);
    put_number(out, usize::from(answer.state));
    put_text(out, digits_of(levels, answer.degree));
    out.push_str(")\n");
}

/// A line for each answer.
pub(crate) fn degree_lines(answers: &Answers) -> ArrayString<256>
    ensures { result.bytes ≡ degree_lines answers.now.levels 0 answers.now.list.items }
{
    let mut out = ArrayString::new();
    for (i, answer) in answers.list.iter().enumerate() {
        degree_line(&mut out, answers.levels, i, *answer);
    }
    out
}

/// Who refuses with this fault.
fn refuser(fault: TextFault) -> &'static str
    ensures text { result.now ≡ who (told fault).number }
    ensures short { length result.now ≤ 5 }
{
    match fault {
        TextFault::Sheet(_, SheetFault::Model(_)) => "model",
        TextFault::Sheet(_, _) => "sheet",
        _ => "text",
    }
}

/// The line of a fault.
pub(crate) fn fault_line(fault: TextFault) -> ArrayString<256>
    ensures { result.bytes ≡ fault_line (told fault) }
{
    let place = fault.place();
    let mut out = ArrayString::new();
    out.push_str("(fault");
    put_text(&mut out, refuser(fault));
    put_number(&mut out, usize::from(fault.number()));
    put_number(&mut out, place.line);
    put_number(&mut out, place.column);
    put_number(&mut out, usize::from(fault.value()));
    out.push_str(")\n");
    out
}

/// Copies bytes to the front of a buffer.
pub(crate) fn copy(buffer: &mut [u8], bytes: &[u8])
    requires { length bytes.now ≤ length buffer.old }
    ensures { buffer.new ≡ bytes.now ++ drop (length bytes.now) buffer.old }
{
    buffer[..bytes.len()].copy_from_slice(bytes);
}
