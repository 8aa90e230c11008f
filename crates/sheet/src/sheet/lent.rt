//! A sheet with its degree bytes, and a row over them.
ghost use Rattle.std.specs.Prelude.{◌≡◌, ◌≢◌, ◌*◌, ◌<◌, ◌≤◌, ◌==◌, length, is_some};
ghost use Rattle.std.specs.Option.{ForSome};
ghost use Rattle.sheet.specs.Kinds.{number_of, operands_of};

use super::Sheet;
use crate::kinds::Kind;

/// A sheet with its rows' degree bytes.
#[derive(Clone, Copy)]
pub(crate) struct Lent<'a> {
    pub(super) sheet: &'a Sheet,
    pub(super) bytes: &'a [u8],
    ghost long: { sheet.now.rows * sheet.now.size.states ≤ length bytes.now },
}

/// A row of a known kind over a sheet: `a` is a row of it, or for `Prop` the proposition; `b` is there exactly where the kind
/// has two operands.
#[derive(Clone, Copy)]
pub(crate) struct Known<'a> {
    pub(super) lent: Lent<'a>,
    pub(super) kind: Kind,
    pub(super) a: u8,
    pub(super) b: Option<u8>,
    ghost first: { (number_of kind ≢ 1) → a < lent.sheet.now.rows },
    ghost binary: { is_some b ≡ (operands_of (number_of kind) == 2) },
    ghost second: { ForSome b (λ b. b < lent.sheet.now.rows) },
}
