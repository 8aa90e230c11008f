//! What `enter` checks before it works out a row.
ghost use Rattle.std.specs.Prelude.{◌≡◌, ℕ, ◌*◌, ◌<◌, ◌≤◌, true, false, List, length, Ok, IfOk, MatchOption};
ghost use Rattle.sheet.specs.Calls.{entering, fitting, roomy, formed, sound, readable};
ghost use Rattle.sheet.specs.Checks.{Room, Ready};
ghost use Rattle.sheet.specs.Faults.{answer};
ghost use Rattle.sheet.specs.Kinds.{number_of};
ghost use Rattle.sheet.specs.Over.{state_of, row_of, misplaced, outcome, Fits, Lends, Stands};
ghost use Rattle.sheet.specs.States.{seen};
ghost use Rattle.sheet.specs.declared.row.Row.{Row as Record};

use super::Sheet;
use crate::fault::SheetFault;
use crate::kinds::Kind;
use crate::row::Row;
use crate::sheet::lent::{Known, Lent};
use model::check::walkable;
use model::interface::Model;
use scale::scales::Scale;

impl Sheet {
    /// Are the model and the scale of the sheet's size?
    pub(crate) fn fits<M: Model, S: Scale>(&self, model: &M, scale: &S) -> Result<(), SheetFault>
        ensures known { result ≡ Ok tt → Fits (M.meaning model.now) (S.grades scale.now) self.now }
        ensures exact { (rs : List Record) (bs : List ℕ) → answer result ≡ fitting (seen self.now rs bs) (M.meaning model.now) (S.grades scale.now) }
    {
        if model.size() != self.size || scale.levels() != self.levels {
            return Err(SheetFault::Differs);
        }
        Ok(())
    }

    /// The sheet with its bytes, if there is room for one more row.
    fn room<'a>(&'a self, rows: &[Row], bytes: &'a [u8]) -> Result<Lent<'a>, SheetFault>
        ensures known { IfOk result (λ x. Room self.now (length rows.now) (length bytes.now) × Lends x self.now bytes.now) }
        ensures exact { outcome result ≡ roomy (seen self.now rows.now bytes.now) }
    {
        let count = usize::from(self.rows) + 1;
        let states = usize::from(self.size.states);
        if self.rows >= 128 || rows.len() < count || bytes.len() < count * states {
            return Err(SheetFault::Short);
        }
        Ok(Lent { sheet: self, bytes })
    }

    /// How many bytes the rows' degrees take.
    pub(crate) fn used(&self) -> usize
        ensures { result ≡ self.now.rows * self.now.size.states }
    {
        usize::from(self.rows) * usize::from(self.size.states)
    }

    // Model, scale and buffers one by one, as `enter` is given them.
    /// All that `enter` checks, in its order. Returns the row with its sheet and bytes.
    pub(crate) fn check<'a, M: Model, S: Scale>(
        &'a self,
        model: &M,
        scale: &S,
        rows: &[Row],
        bytes: &'a [u8],
        row: Row,
    ) -> Result<Known<'a>, SheetFault>
        ensures known { IfOk result (λ x. Ready (M.meaning model.now) (S.grades scale.now) self.now rows.now bytes.now row × Stands x self.now bytes.now row) }
        ensures exact { outcome result ≡ entering (M.meaning model.now) (S.grades scale.now) (seen self.now rows.now bytes.now) row }
    {
        self.fits(model, scale)?;
        walkable(model)?;
        let lent = self.room(rows, bytes)?;
        let known = lent.form(row)?;
        known.read()?;
        Ok(known)
    }
}

impl<'a> Lent<'a> {
    // That the row is there is asked: a row is a number in the users' calls, as in `working.rt`.
    /// Are the bytes of a row degrees?
    fn degrees_only(&self, row: u8) -> bool
        requires { row < self.now.sheet.now.rows }
        ensures { (rs : List Record) → result ≡ sound (state_of self.now rs) row }
    {
        let n = usize::from(self.sheet.size.states);
        let start = usize::from(row) * n;
        let top = self.sheet.levels;
        self.bytes[start..start + n].iter().all(|byte| *byte <= top)
    }

    /// The row over the sheet, if its operands are rows below `count` and an unused one is 0.
    pub(crate) fn known(&self, kind: Kind, row: Row, count: u8) -> Option<Known<'a>>
        requires { (number_of kind ≡ row.kind) × (count ≤ self.now.sheet.now.rows) }
        ensures { MatchOption result (misplaced count row ≡ true) (λ x. (misplaced count row ≡ false) × Stands x self.now.sheet.now self.now.bytes.now row) }
    {
        let first = kind == Kind::Prop || row.a < count;
        let b = kind.is_binary().then_some(row.b);
        let second = b.map_or(row.b == 0, |b| b < count);
        if !(first && second) {
            return None;
        }
        Some(Known {
            lent: *self,
            kind,
            a: row.a,
            b,
        })
    }

    /// The row over the sheet, if it has a kind, and its proposition or its operands are there.
    fn form(&self, row: Row) -> Result<Known<'a>, SheetFault>
        ensures known { IfOk result (λ x. Stands x self.now.sheet.now self.now.bytes.now row) }
        ensures exact { (rs : List Record) → outcome result ≡ formed (state_of self.now rs) row }
    {
        let kind = Kind::try_from(row.kind)?;
        if kind == Kind::Prop && row.a >= self.sheet.size.props {
            return Err(SheetFault::Prop);
        }
        self.known(kind, row, self.sheet.rows)
            .ok_or(SheetFault::Operand)
    }
}

impl Known<'_> {
    /// Are the bytes of the row's operands degrees?
    pub(crate) fn read(&self) -> Result<(), SheetFault>
        ensures { (rs : List Record) → answer result ≡ readable (state_of self.now.lent rs) (row_of self.now) }
    {
        // A match and no is_some_and: the proof did not close over its closure.
        if self.kind != Kind::Prop && !self.lent.degrees_only(self.a)
            || matches!(self.b, Some(b) if !self.lent.degrees_only(b))
        {
            return Err(SheetFault::Byte);
        }
        Ok(())
    }
}
