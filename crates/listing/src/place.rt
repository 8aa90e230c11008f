//! Lines and columns.
ghost use Rattle.std.specs.Prelude.{◌≡◌};
ghost use Rattle.listing.specs.Places.{place_after, place_of};

use crate::fault::Place;

/// The line and the column just after these bytes.
fn place_after(text: &[u8]) -> Place
    ensures { (result.line, result.column) ≡ place_after text.now }
{
    // Both are counted in one pass; a chain for each would go over the text twice; one `fold` over both would make the
    // place anew for each byte, and reads no plainer.
    let mut line = 1;
    let mut column = 1;
    for b in text {
        if *b == b'\n' {
            line += 1;
            column = 1;
        } else {
            column += 1;
        }
    }
    Place { line, column }
}

/// The line and the column from which so many bytes of the text are left.
pub(crate) fn place_of(text: &[u8], left: usize) -> Place
    ensures { (result.line, result.column) ≡ place_of text.now left }
{
    let before = text.len().saturating_sub(left);
    place_after(&text[..before])
}
