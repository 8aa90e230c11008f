//! Formulas.
ghost use Rattle.std.specs.Prelude.{◌≡◌, ◌+◌, ◌-◌, ◌<◌, ◌≤◌, length, IfOk, OnOk};
ghost use Rattle.sheet.specs.Kinds.{number_of};
ghost use Rattle.sheet.specs.declared.kinds.Kind.TheVariants.{E, A};
ghost use Rattle.text.specs.Formulas.{named, operator_at, name_at, open_at, close_at, prop_at, formula_at};
ghost use Rattle.text.specs.Reads.{beside, beside_by, with};

use super::Reader;
use crate::fault::ReadFault;
use arrayvec::ArrayVec;
use engine::operator::Operator;
use sheet::kinds::Kind;
use sheet::row::Row;

// Numbers are narrowed by `as`: each is known to fit, and `try_from` would have an error that cannot come.
// Each part by `let .. else`, as in `reader.rt`.
impl Reader<'_> {
    /// Takes the name that the table has for a kind.
    fn listed(&mut self, kind: Kind) -> Result<Kind, ReadFault>
        ensures { beside_by number_of result self.new.rest.now ≡ named (number_of kind) self.old.rest.now }
    {
        let Some(()) = self.word(kind.name().as_bytes()) else {
            return Err(self.unfit());
        };
        Ok(kind)
    }

    /// Takes the second letter of a two-letter name.
    fn operator(&mut self) -> Result<Operator, ReadFault>
        ensures some { beside_by (λ o. number_of (E o)) result self.new.rest.now ≡ operator_at 6 self.old.rest.now }
        ensures every { beside_by (λ o. number_of (A o)) result self.new.rest.now ≡ operator_at 11 self.old.rest.now }
    {
        // By letter, not by the table's names: a form fault stands at the first byte that does not fit.
        let operator = match self.peek().map(char::from) {
            Some('X') => Operator::Next,
            Some('F') => Operator::Finally,
            Some('G') => Operator::Globally,
            Some('U') => Operator::Until,
            Some('W') => Operator::Weak,
            _ => return Err(self.unfit()),
        };
        self.skip();
        Ok(operator)
    }

    /// Takes the name of a kind.
    fn kind(&mut self) -> Result<Kind, ReadFault>
        ensures { beside_by number_of result self.new.rest.now ≡ name_at self.old.rest.now }
    {
        match self.peek() {
            Some(b'E') => {
                self.skip();
                Ok(Kind::E(self.operator()?))
            }
            Some(b'A') => {
                self.skip();
                Ok(Kind::A(self.operator()?))
            }
            Some(b'o') => self.listed(Kind::Or),
            Some(b'a') => self.listed(Kind::And),
            Some(b'n') => self.listed(Kind::Not),
            Some(b'i') => self.listed(Kind::Imp),
            _ => self.listed(Kind::Prop),
        }
    }

    /// Takes the opening bracket of a formula in which `left` brackets may be open at once, this one among them.
    fn open(&mut self, rows: &ArrayVec<Row, 32>, left: u8) -> Result<(), ReadFault>
        requires { left ≤ 16 }
        ensures reads { beside result self.new.rest.now ≡ open_at left rows.now.items self.old.rest.now }
        ensures room { OnOk result ((0 < left) × (length rows.now.items + (16 - left) < 32)) }
    {
        let Some(b'(') = self.peek() else {
            return Err(self.unfit());
        };
        if left == 0 || rows.len() + usize::from(16 - left) >= 32 {
            return Err(ReadFault::Many(self.rest.len()));
        }
        self.skip();
        Ok(())
    }

    /// Takes the closing bracket of a formula, adds the row, and gives its number.
    fn close(&mut self, rows: &mut ArrayVec<Row, 32>, row: Row) -> Result<u8, ReadFault>
        requires { length rows.old.items < 32 }
        ensures reads { with result rows.new.items self.new.rest.now ≡ close_at rows.old.items row self.old.rest.now }
        ensures last { IfOk result (λ n. (n ≡ length rows.new.items - 1) × (length rows.new.items ≡ length rows.old.items + 1)) }
    {
        let Some(()) = self.word(b")") else {
            return Err(self.unfit());
        };
        let number = rows.len() as u8;
        rows.push(row);
        Ok(number)
    }

    /// Takes what stands after the name `p`, and adds its row.
    fn prop(&mut self, rows: &mut ArrayVec<Row, 32>) -> Result<u8, ReadFault>
        requires { length rows.old.items < 32 }
        ensures reads { with result rows.new.items self.new.rest.now ≡ prop_at rows.old.items self.old.rest.now }
        ensures last { IfOk result (λ n. (n ≡ length rows.new.items - 1) × (length rows.new.items ≡ length rows.old.items + 1)) }
    {
        let Some(i) = self.numeral() else {
            return Err(self.unfit());
        };
        self.close(rows, Row::of(Kind::Prop, i.min(255) as u8, 0))
    }

    /// Takes a formula in which `left` brackets may be open at once, adds its rows, and gives the number of its own.
    #[tactic(auto, using(crate::proofs::Opened::formula_is, crate::proofs::Numbers::not_one))]
    pub(crate) fn formula(
        &mut self,
        rows: &mut ArrayVec<Row, 32>,
        left: u8,
    ) -> Result<u8, ReadFault>
        requires { left ≤ 16 }
        ensures reads { with result rows.new.items self.new.rest.now ≡ formula_at left rows.old.items self.old.rest.now }
        ensures last { IfOk result (λ n. (n ≡ length rows.new.items - 1) × (0 < length rows.new.items)) }
        ensures room { OnOk result (length rows.new.items + (16 - left) ≤ 32) }
    {
        self.open(rows, left)?;
        let kind = self.kind()?;
        let Some(()) = self.gap() else {
            return Err(self.unfit());
        };
        if kind == Kind::Prop {
            return self.prop(rows);
        }
        let a = self.formula(rows, left - 1)?;
        if !kind.is_binary() {
            return self.close(rows, Row::of(kind, a, 0));
        }
        let Some(()) = self.gap() else {
            return Err(self.unfit());
        };
        let b = self.formula(rows, left - 1)?;
        self.close(rows, Row::of(kind, a, b))
    }
}
