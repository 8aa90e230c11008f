//! The kinds of row, and the constant table of them.
ghost use Rattle.std.specs.Prelude.{◌≡◌, ◌&&◌, leb, if◌then◌else◌, Some, None, ◌==◌, nat_le};
ghost use Rattle.std.specs.Option.{option_map};
ghost use Rattle.sheet.specs.Kinds.{operands_of, name_of, number_of, path_of, Numbered, Tells};

use engine::operator::Operator;

/// A kind of row.
#[derive(Clone, Copy, PartialEq, Eq, Debug)]
pub enum Kind {
    Prop,
    Or,
    And,
    Not,
    Imp,
    /// On some walk.
    E(Operator),
    /// On every walk.
    A(Operator),
}

/// A number that no kind of row has.
#[derive(Clone, Copy, PartialEq, Eq, Debug)]
pub struct UnknownKind(pub u8);

/// What is known of a kind of row.
#[derive(Clone, Copy)]
pub struct KindInfo {
    pub kind: Kind,
    // The number that a row record holds; `try_from` looks for it.
    pub number: u8,
    pub name: &'static str,
    pub operands: u8,
}

/// The kinds in the order of their numbers.
pub const KINDS: [KindInfo; 15] = [
    KindInfo {
        kind: Kind::Prop,
        number: 1,
        name: "p",
        operands: 1,
    },
    KindInfo {
        kind: Kind::Or,
        number: 2,
        name: "or",
        operands: 2,
    },
    KindInfo {
        kind: Kind::And,
        number: 3,
        name: "and",
        operands: 2,
    },
    KindInfo {
        kind: Kind::Not,
        number: 4,
        name: "not",
        operands: 1,
    },
    KindInfo {
        kind: Kind::Imp,
        number: 5,
        name: "imp",
        operands: 2,
    },
    KindInfo {
        kind: Kind::E(Operator::Next),
        number: 6,
        name: "EX",
        operands: 1,
    },
    KindInfo {
        kind: Kind::E(Operator::Finally),
        number: 7,
        name: "EF",
        operands: 1,
    },
    KindInfo {
        kind: Kind::E(Operator::Globally),
        number: 8,
        name: "EG",
        operands: 1,
    },
    KindInfo {
        kind: Kind::E(Operator::Until),
        number: 9,
        name: "EU",
        operands: 2,
    },
    KindInfo {
        kind: Kind::E(Operator::Weak),
        number: 10,
        name: "EW",
        operands: 2,
    },
    KindInfo {
        kind: Kind::A(Operator::Next),
        number: 11,
        name: "AX",
        operands: 1,
    },
    KindInfo {
        kind: Kind::A(Operator::Finally),
        number: 12,
        name: "AF",
        operands: 1,
    },
    KindInfo {
        kind: Kind::A(Operator::Globally),
        number: 13,
        name: "AG",
        operands: 1,
    },
    KindInfo {
        kind: Kind::A(Operator::Until),
        number: 14,
        name: "AU",
        operands: 2,
    },
    KindInfo {
        kind: Kind::A(Operator::Weak),
        number: 15,
        name: "AW",
        operands: 2,
    },
];

impl TryFrom<u8> for Kind {
    type Error = UnknownKind;

    ghost try_from_gives = { Numbered };

    fn try_from(number: u8) -> Result<Self, UnknownKind> {
        KINDS
            .iter()
            .find(|info| info.number == number)
            .map(|info| info.kind)
            .ok_or(UnknownKind(number))
    }
}

impl Kind {
    /// The kind's entry in the table.
    fn info(self) -> KindInfo
        ensures { Tells self result }
    {
        *KINDS.iter().find(|info| info.kind == self).unwrap()
    }

    /// The kind's number.
    pub fn number(self) -> u8
        ensures { result ≡ number_of self }
    {
        self.info().number
    }

    /// The kind's name.
    pub fn name(self) -> &'static str
        ensures { result.now ≡ name_of (number_of self) }
    {
        self.info().name
    }

    /// How many operands a row of this kind has.
    pub fn operands(self) -> u8
        ensures { result ≡ operands_of (number_of self) }
    {
        self.info().operands
    }

    /// Has a row of this kind two operands?
    pub fn is_binary(self) -> bool
        ensures { result ≡ (operands_of (number_of self) == 2) }
    {
        self.operands() == 2
    }

    // The quantifier is a `bool`, as the engine takes it.
    /// For a kind that asks for walks, whether some walk serves, and what is asked of it.
    pub(crate) fn path(self) -> Option<(bool, Operator)>
        ensures { result ≡ path_of self }
    {
        match self {
            Kind::E(operator) => Some((true, operator)),
            Kind::A(operator) => Some((false, operator)),
            _ => None,
        }
    }
}

/// The name of a kind, if there is such a kind.
pub fn name(kind: u8) -> Option<&'static str>
    ensures { option_map (λ x. x.now) result ≡ (if leb 1 kind && nat_le kind 15 then Some (name_of kind) else None) }
{
    Kind::try_from(kind).ok().map(Kind::name)
}

/// How many operands a row of this kind has, if there is such a kind.
pub fn operands(kind: u8) -> Option<u8>
    ensures { result ≡ (if leb 1 kind && nat_le kind 15 then Some (operands_of kind) else None) }
{
    Kind::try_from(kind).ok().map(Kind::operands)
}

/// Has a row of this kind two operands?
pub fn is_binary(kind: u8) -> bool
    ensures { result ≡ (operands_of kind == 2) }
{
    Kind::try_from(kind).is_ok_and(Kind::is_binary)
}
