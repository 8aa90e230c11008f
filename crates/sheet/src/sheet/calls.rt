//! The calls of the sheet.
ghost use Rattle.std.specs.Prelude.{◌≡◌, ℕ, List, Ok};
ghost use Rattle.sheet.specs.Calls.{open_answer, enter_answer, enter_leaves, degree_answer, cleared};
ghost use Rattle.sheet.specs.Checks.{RowReaches};
ghost use Rattle.sheet.specs.Faults.{answer};
ghost use Rattle.sheet.specs.Histories.{DegreeIsTrue, WalkIsTrue};
ghost use Rattle.sheet.specs.Walking.{Walks};
ghost use Rattle.sheet.specs.States.{seen, seen_in};
ghost use Rattle.sheet.specs.declared.row.Row.{Row as Record};

use super::Sheet;
use crate::fault::SheetFault;
use crate::row::Row;
use crate::sheet::lent::Lent;
use model::check::walkable;
use model::interface::Model;
use scale::scales::Scale;

// Model, scale and both buffers are parameters of each call and no field: the caller lends them anew each time. A stem and a loop
// are answered as a pair of counts.
impl Sheet {
    /// A sheet without rows over a model and a scale.
    pub fn open<M: Model, S: Scale>(model: &M, scale: &S) -> Result<Sheet, SheetFault>
        ensures { (rs : List Record) (bs : List ℕ) → seen_in result rs bs ≡ open_answer (M.meaning model.now) (S.grades scale.now) rs bs }
    {
        walkable(model)?;
        Ok(Sheet {
            size: model.size(),
            levels: scale.levels(),
            rows: 0,
        })
    }

    /// Enters a row and works out its degrees. Answers the row's number.
    pub fn enter<M: Model, S: Scale>(
        &mut self,
        model: &M,
        scale: &S,
        rows: &mut [Row],
        bytes: &mut [u8],
        row: Row,
    ) -> Result<u8, SheetFault>
        ensures answers { answer result ≡ enter_answer (M.meaning model.now) (S.grades scale.now) (seen self.old rows.old bytes.old) row }
        ensures sets { (n : ℕ) → result ≡ Ok n → RowReaches (M.meaning model.now) (S.grades scale.now) (seen self.old rows.old bytes.old) row (seen self.new rows.new bytes.new) n }
        ensures leaves { seen self.new rows.new bytes.new ≡ enter_leaves (M.meaning model.now) (S.grades scale.now) (seen self.old rows.old bytes.old) row }
    {
        let known = self.check(model, scale, rows, bytes, row)?;
        let (kind, a, b) = (known.kind, known.a, known.b);
        self.append(model, scale, bytes, kind, a, b);
        let count = self.rows;
        rows[usize::from(count)] = row;
        self.rows = count + 1;
        Ok(count)
    }

    /// Forgets all rows. The buffers are not touched.
    pub fn clear(&mut self)
        ensures { (rs : List Record) (bs : List ℕ) → seen self.new rs bs ≡ cleared (seen self.old rs bs) }
    {
        self.rows = 0;
    }

    /// The degree of a row at a state.
    pub fn degree(&self, bytes: &[u8], row: u8, state: u16) -> Result<u8, SheetFault>
        ensures exact { (rs : List Record) → answer result ≡ degree_answer (seen self.now rs bytes.now) row state }
        ensures law { (rs : List Record) → DegreeIsTrue (seen self.now rs bytes.now) row state (answer result) }
    {
        if row >= self.rows || state >= self.size.states {
            return Err(SheetFault::NoRow);
        }
        if bytes.len() < self.used() {
            return Err(SheetFault::Short);
        }
        let byte = Lent { sheet: self, bytes }.byte(row, state);
        if byte > self.levels {
            return Err(SheetFault::Byte);
        }
        Ok(byte)
    }

    /// An endless walk from a state that meets a level, for an E row, or breaks it, for an A row, by the operands' bytes.
    /// Writes a stem and a loop, and answers their lengths: the stem, then the loop for ever, is the walk.
    pub fn walk<M: Model, S: Scale>(
        &self,
        model: &M,
        scale: &S,
        rows: &[Row],
        bytes: &[u8],
        row: u8,
        state: u16,
        level: u8,
        out: &mut [u16],
    ) -> Result<(u16, u16), SheetFault>
        ensures exact { Walks (M.meaning model.now) (S.grades scale.now) (seen self.now rows.now bytes.now) row state level out.old out.new (answer result) }
        ensures law { WalkIsTrue (seen self.now rows.now bytes.now) row state level out.old out.new (answer result) (M.meaning model.now) (S.grades scale.now) }
    {
        self.check_walk(model, scale, rows, bytes, row, state, level, out.len())?
            .seek(model, scale, state, level, out)
            .ok_or(SheetFault::NoWalk)
    }
}
