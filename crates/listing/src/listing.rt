//! The listing call.
ghost use Rattle.std.specs.Prelude.{◌≡◌, ◌≤◌, length};
ghost use Rattle.listing.specs.Laws.{ListedByLanguage};
ghost use Rattle.listing.specs.Listings.{given_in, listing, lines_of, number_in};
ghost use Rattle.listing.specs.Truths.{TrueListing};

use crate::answering::answers;
use crate::answers::Answers;
use crate::fault::TextFault;
use crate::writing::{copy, degree_lines, fault_line};
use arrayvec::ArrayString;

/// What the listing call answers: how many bytes it wrote, and the number of the refusal, 0 for none.
// Not a `Result`: a refusal writes a line as well, so both have a count of bytes; users compare the number.
#[derive(Clone, Copy, PartialEq, Eq, Debug)]
pub struct Listed {
    pub written: usize,
    pub number: u8,
}

impl Listed {
    /// So many bytes written, with or without a fault.
    fn of(written: usize, fault: Option<TextFault>) -> Listed
        ensures { (result.written ≡ written) × (result.number ≡ number_in fault) }
    {
        Listed {
            written,
            number: fault.map_or(0, TextFault::number),
        }
    }
}

/// The lines of a listing: a text's degrees, or its fault.
fn lines_of(given: &Result<Answers, TextFault>) -> ArrayString<256>
    ensures { result.bytes ≡ (lines_of (given_in given.now)).0 }
{
    match given {
        Ok(degrees) => degree_lines(degrees),
        Err(fault) => fault_line(*fault),
    }
}

/// Lists the degrees that a text asks for, or its fault, at the front of a buffer; what follows stays as it is.
///
/// A buffer below 256 bytes is refused with 18, and nothing is written.
pub fn list(text: &[u8], buffer: &mut [u8]) -> Listed
    ensures within { result.written ≤ length buffer.old }
    ensures exact { (result.written, result.number, buffer.new) ≡ listing text.now buffer.old }
    ensures language { ListedByLanguage text.now buffer.old result.written result.number buffer.new }
    ensures truth { TrueListing text.now buffer.old result.written result.number buffer.new }
{
    if buffer.len() < 256 {
        return Listed::of(0, Some(TextFault::Buffer));
    }
    let given = answers(text);
    let lines = lines_of(&given);
    copy(buffer, lines.as_str().as_bytes());
    Listed::of(lines.len(), given.err())
}
