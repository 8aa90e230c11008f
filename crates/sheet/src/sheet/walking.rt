//! How `walk` checks a request, and looks for a walk.
ghost use Rattle.std.specs.Prelude.{◌≡◌, ℕ, ◌*◌, ◌<◌, ◌≤◌, List, length, Ok, IfOk};
ghost use Rattle.model.specs.Walkable.{Total};
ghost use Rattle.sheet.specs.Calls.{and_then};
ghost use Rattle.sheet.specs.Checks.{ReadyToWalk};
ghost use Rattle.sheet.specs.Faults.{answer};
ghost use Rattle.sheet.specs.Kinds.{number_of};
ghost use Rattle.sheet.specs.Over.{state_of, row_of, outcome, Fits, Lends, Stands};
ghost use Rattle.sheet.specs.States.{seen};
ghost use Rattle.sheet.specs.Walking.{record_of, present, roomy_now, asks_walks, operands_now, leveled, walking, WantedBy, Seeks};
ghost use Rattle.sheet.specs.declared.row.Row.{Row as Record};

use super::Sheet;
use crate::fault::SheetFault;
use crate::kinds::Kind;
use crate::row::Row;
use crate::sheet::lent::{Known, Lent};
use engine::operands::Operands;
use engine::walks::show;
use model::check::walkable;
use model::interface::Model;
use scale::scales::Scale;

/// The kind of a row that asks for walks.
fn asking_kind(row: Row) -> Result<Kind, SheetFault>
    ensures known { IfOk result (λ kind. (number_of kind ≡ row.kind) × (6 ≤ row.kind)) }
    ensures exact { outcome result ≡ asks_walks row }
{
    // One match: a chain of `ok`, `filter` and `ok_or` reads no plainer.
    match Kind::try_from(row.kind) {
        Ok(kind) if kind.path().is_some() => Ok(kind),
        _ => Err(SheetFault::NoPath),
    }
}

impl Sheet {
    // Row, state and level come one by one, as a user gives them to `walk`: a struct of the three would serve these calls alone.
    /// The sheet with its bytes, if the row and the state are there and the buffers are long enough for the rows.
    fn lend<'a>(
        &'a self,
        rows: &[Row],
        bytes: &'a [u8],
        row: u8,
        state: u16,
    ) -> Result<Lent<'a>, SheetFault>
        ensures exact { outcome result ≡ and_then (present (seen self.now rows.now bytes.now) row state) (roomy_now (seen self.now rows.now bytes.now)) }
        ensures known { IfOk result (λ x. (row < self.now.rows) × (state < self.now.size.states) × (self.now.rows ≤ length rows.now) × (self.now.rows * self.now.size.states ≤ length bytes.now) × Lends x self.now bytes.now) }
    {
        if row >= self.rows || state >= self.size.states {
            return Err(SheetFault::NoRow);
        }
        if rows.len() < usize::from(self.rows) || bytes.len() < self.used() {
            return Err(SheetFault::Short);
        }
        Ok(Lent { sheet: self, bytes })
    }

    /// Is there such a level, and room for a walk?
    fn has_level(&self, level: u8, room: usize) -> Result<(), SheetFault>
        ensures exact { (rs : List Record) (bs : List ℕ) → answer result ≡ leveled (seen self.now rs bs) level room }
        ensures known { result ≡ Ok tt → (1 ≤ level) × (level ≤ self.now.levels) × (2 * self.now.size.states ≤ room) }
    {
        if !(1..=self.levels).contains(&level) {
            return Err(SheetFault::Level);
        }
        if room < 2 * usize::from(self.size.states) {
            return Err(SheetFault::WalkShort);
        }
        Ok(())
    }

    // All one by one, as `walk` is given them.
    /// All that `walk` checks before it looks for a walk, in its order. Returns the row with its sheet and bytes.
    pub(crate) fn check_walk<'a, M: Model, S: Scale>(
        &'a self,
        model: &M,
        scale: &S,
        rows: &[Row],
        bytes: &'a [u8],
        row: u8,
        state: u16,
        level: u8,
        room: usize,
    ) -> Result<Known<'a>, SheetFault>
        ensures known { IfOk result (λ x. ReadyToWalk (M.meaning model.now) (S.grades scale.now) self.now rows.now bytes.now row state level room × Stands x self.now bytes.now (record_of (seen self.now rows.now bytes.now) row)) }
        ensures exact { outcome result ≡ walking (M.meaning model.now) (S.grades scale.now) (seen self.now rows.now bytes.now) row state level room }
    {
        self.fits(model, scale)?;
        walkable(model)?;
        let lent = self.lend(rows, bytes, row, state)?;
        let known = lent.recorded(row, rows[usize::from(row)])?;
        self.has_level(level, room)?;
        Ok(known)
    }
}

impl<'a> Lent<'a> {
    /// The recorded row `number`, if it asks for walks, its operands are earlier rows, and their bytes are degrees.
    fn recorded(&self, number: u8, row: Row) -> Result<Known<'a>, SheetFault>
        requires { number < self.now.sheet.now.rows }
        ensures known { IfOk result (λ x. (6 ≤ row.kind) × Stands x self.now.sheet.now self.now.bytes.now row) }
        ensures exact { (rs : List Record) → outcome result ≡ and_then (asks_walks row) (operands_now (state_of self.now rs) number row) }
    {
        let kind = asking_kind(row)?;
        let known = self.known(kind, row, number).ok_or(SheetFault::Byte)?;
        known.read()?;
        Ok(known)
    }
}

impl Known<'_> {
    // Model, scale, state and level one by one, with what is asked of them, as in `working.rt`.
    /// Looks for a walk that the row asks for.
    pub(crate) fn seek<M: Model, S: Scale>(
        &self,
        model: &M,
        scale: &S,
        state: u16,
        level: u8,
        out: &mut [u16],
    ) -> Option<(u16, u16)>
        requires sizes { Fits (M.meaning model.now) (S.grades scale.now) self.now.lent.sheet.now }
        requires total { Total (M.meaning model.now) }
        requires request { (state < self.now.lent.sheet.now.size.states) × (1 ≤ level) × (level ≤ self.now.lent.sheet.now.levels) }
        requires room { self.now.lent.sheet.now.size.states ≤ length out.old }
        ensures { (rs : List Record) → Seeks (M.meaning model.now) (WantedBy (S.grades scale.now) (state_of self.now.lent rs) (row_of self.now) level) state out.old out.new result }
    {
        let (some, operator) = self.kind.path()?;
        let reading = scale.reading(level).unwrap();
        let left = self.lent.reaching(self.a, level);
        let right = self.second_reaching(level);
        let operands = Operands {
            left: &left,
            right: &right,
        };
        show(model, some, operator, reading, operands, state, out)
    }
}
