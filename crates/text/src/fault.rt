//! Why a text is not read.

/// Why a text is not read, with how many of its bytes are left from the fault's place on.
#[derive(Clone, Copy, PartialEq, Eq, Debug)]
pub enum ReadFault {
    /// No lawful line goes on with the byte here, or the text ends early.
    Form(usize),
    /// The number that begins here is out of its range.
    Range(usize),
    /// The bracket here is one too many.
    Many(usize),
}
