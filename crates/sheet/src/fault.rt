//! Why a call of the sheet is refused.
ghost use Rattle.std.specs.Prelude.{◌≡◌};
ghost use Rattle.sheet.specs.Faults.{told};
ghost use Rattle.sheet.specs.declared.fault.SheetFault.TheVariants.{Model as OfModel, Kind as NoKind};

use crate::kinds::UnknownKind;
use model::fault::ModelFault;

/// Why a call of the sheet is refused.
#[derive(Clone, Copy, PartialEq, Eq, Debug)]
pub enum SheetFault {
    /// The model cannot be walked.
    Model(ModelFault),
    /// The model or the scale is not of the size that the sheet was opened over.
    Differs,
    /// A buffer is too short, or the sheet is full.
    Short,
    /// There is no such kind.
    Kind,
    /// There is no such proposition.
    Prop,
    /// An operand is no earlier row, or an unused one is not 0.
    Operand,
    /// There is no such row or state.
    NoRow,
    /// A byte that was read is no degree, or a recorded operand is no earlier row.
    Byte,
    /// There is no such level.
    Level,
    /// The row does not ask for walks.
    NoPath,
    /// The walk buffer is too short.
    WalkShort,
    /// There is no such walk.
    NoWalk,
}

impl From<ModelFault> for SheetFault {
    ghost from_gives = { λ e r. r ≡ OfModel e };

    fn from(fault: ModelFault) -> SheetFault {
        Self::Model(fault)
    }
}

impl From<UnknownKind> for SheetFault {
    ghost from_gives = { λ _ r. r ≡ NoKind };

    fn from(_fault: UnknownKind) -> SheetFault {
        Self::Kind
    }
}

impl SheetFault {
    // As in ModelFault: number and value are one match each, and one match that gave both would be no clearer.
    /// The fault's number.
    pub fn number(self) -> u8
        ensures { result ≡ (told self).number }
    {
        match self {
            SheetFault::Model(fault) => fault.number(),
            SheetFault::Differs => 3,
            SheetFault::Short => 4,
            SheetFault::Kind => 5,
            SheetFault::Prop => 6,
            SheetFault::Operand => 7,
            SheetFault::NoRow => 8,
            SheetFault::Byte => 9,
            SheetFault::Level => 10,
            SheetFault::NoPath => 11,
            SheetFault::WalkShort => 12,
            SheetFault::NoWalk => 13,
        }
    }

    // 0 and no `None`: a listing prints it so.
    /// The state that the fault names, else 0.
    pub fn value(self) -> u16
        ensures { result ≡ (told self).value }
    {
        match self {
            SheetFault::Model(fault) => fault.value(),
            _ => 0,
        }
    }
}
