//! Why a text gets no degrees.
ghost use Rattle.std.specs.Prelude.{◌≡◌};
ghost use Rattle.listing.specs.Faults.{told};
ghost use Rattle.listing.specs.declared.fault.TextFault.TheVariants.{Sheet as OfSheet};

use sheet::fault::SheetFault;

/// A line and a column, from 1.
#[derive(Clone, Copy, PartialEq, Eq, Debug)]
pub struct Place {
    pub line: usize,
    pub column: usize,
}

// A type of its own: a fault of the sheet becomes one of the text by `From`, with its line, as the users ask.
/// A fault of the sheet, and the line of the text to which it belongs.
#[derive(Clone, Copy, PartialEq, Eq, Debug)]
pub struct AtLine {
    pub line: usize,
    pub fault: SheetFault,
}

/// Why a text gets no degrees.
#[derive(Clone, Copy, PartialEq, Eq, Debug)]
pub enum TextFault {
    /// The listing's buffer is too short.
    Buffer,
    /// The text is too long.
    Long,
    /// No lawful line goes on here, or the text ends early.
    Form(Place),
    /// A number is out of its range.
    Range(Place),
    /// A bracket is one too many.
    Many(Place),
    /// The sheet refuses the model or the ask of this line.
    Sheet(usize, SheetFault),
}

impl From<AtLine> for TextFault {
    ghost from_gives = { λ e r. r ≡ OfSheet e.line e.fault };

    fn from(at: AtLine) -> TextFault {
        Self::Sheet(at.line, at.fault)
    }
}

impl TextFault {
    // `number`, `place` and `value` tell three things of a fault: each is one match, and all in one would be no clearer.
    /// The fault's number.
    pub fn number(self) -> u8
        ensures { result ≡ (told self).number }
    {
        match self {
            TextFault::Buffer => 18,
            TextFault::Long => 14,
            TextFault::Form(_) => 15,
            TextFault::Range(_) => 16,
            TextFault::Many(_) => 17,
            TextFault::Sheet(_, fault) => fault.number(),
        }
    }

    /// The line and the column to which the fault belongs.
    pub fn place(self) -> Place
        ensures { (result.line ≡ (told self).line) × (result.column ≡ (told self).column) }
    {
        match self {
            TextFault::Buffer | TextFault::Long => Place { line: 1, column: 1 },
            TextFault::Form(place) | TextFault::Range(place) | TextFault::Many(place) => place,
            TextFault::Sheet(line, _) => Place { line, column: 1 },
        }
    }

    // 0 and no `None`: the listing prints it so.
    /// The state that the fault names, else 0.
    pub fn value(self) -> u16
        ensures { result ≡ (told self).value }
    {
        match self {
            TextFault::Sheet(_, fault) => fault.value(),
            _ => 0,
        }
    }
}
