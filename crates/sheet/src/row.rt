//! Row records.
ghost use Rattle.std.specs.Prelude.{◌≡◌};
ghost use Rattle.sheet.specs.Kinds.{row_with};

use crate::kinds::Kind;

/// A row as its buffer holds it. The numbers are checked by the calls that read them: a lent buffer may hold anything.
#[derive(Clone, Copy, PartialEq, Eq, Debug, Default)]
pub struct Row {
    pub kind: u8,
    pub a: u8,
    pub b: u8,
}

impl Row {
    /// The row of a kind over these operands.
    pub fn of(kind: Kind, a: u8, b: u8) -> Row
        ensures { result ≡ row_with kind a b }
    {
        let kind = kind.number();
        Row { kind, a, b }
    }
}
