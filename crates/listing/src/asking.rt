//! Asks of a script, on a sheet.
ghost use Rattle.std.specs.Prelude.{◌≡◌};
ghost use Rattle.std.specs.List.{between};
ghost use Rattle.text.specs.Scripts.{said_in};
ghost use Rattle.listing.specs.Runs.{enter_all, ask_one, asks_on, ask_all};
ghost use Rattle.listing.specs.Sheets.{state, entered, asked, listed};

use crate::answers::Answer;
use crate::fault::{AtLine, TextFault};
use arrayvec::ArrayVec;
use model::interface::Model;
use scale::scales::Scale;
use sheet::fault::SheetFault;
use sheet::row::Row;
use sheet::sheet::Sheet;
use text::script::{Ask, Body};

/// A sheet, the model and the scale that it is over, and its buffers.
#[derive(Drop)]
struct Desk<'a, M, S> {
    model: &'a M,
    scale: &'a S,
    sheet: Sheet,
    records: [Row; 32],
    bytes: [u8; 16384],
}

impl<'a, M: Model, S: Scale> Desk<'a, M, S> {
    /// Enters rows one after another.
    fn enter_all(&mut self, rows: &[Row]) -> Result<(), SheetFault>
        ensures enters { entered result (state self.new) ≡ enter_all (M.meaning self.old.model.now) (S.grades self.old.scale.now) (state self.old) rows.now }
        ensures keeps { (self.new.model.now ≡ self.old.model.now) × (self.new.scale.now ≡ self.old.scale.now) }
    {
        for row in rows {
            self.sheet.enter(
                self.model,
                self.scale,
                &mut self.records,
                &mut self.bytes,
                *row,
            )?;
        }
        Ok(())
    }

    /// Enters the rows of an ask and reads its degree.
    fn ask_one(&mut self, rows: &[Row], ask: Ask) -> Result<Answer, SheetFault>
        ensures asks { asked result (state self.new) ≡ ask_one (M.meaning self.old.model.now) (S.grades self.old.scale.now) (state self.old) rows.now ask }
        ensures keeps { (self.new.model.now ≡ self.old.model.now) × (self.new.scale.now ≡ self.old.scale.now) }
    {
        self.enter_all(rows)?;
        let degree = self.sheet.degree(&self.bytes, ask.row, ask.state)?;
        Ok(Answer {
            state: ask.state,
            degree,
        })
    }

    /// Answers the asks of a script, one after another, on a sheet without rows.
    fn ask_all(&mut self, body: &Body) -> Result<ArrayVec<Answer, 8>, TextFault>
        ensures { listed result ≡ asks_on (M.meaning self.old.model.now) (S.grades self.old.scale.now) (said_in body.now) (state self.old) }
    {
        let first = 3 + body.steps.len() + body.holdings.len();
        let mut done = ArrayVec::new();
        let mut entered = 0;
        for (i, ask) in body.asks.iter().enumerate() {
            let line = first + i;
            let upto = usize::from(ask.row) + 1;
            let answer = self
                .ask_one(part(body.rows.as_slice(), entered, upto), *ask)
                .map_err(|fault| AtLine { line, fault })?;
            done.push(answer);
            entered = upto;
        }
        Ok(done)
    }
}

/// The rows from one place up to another, as far as there are rows.
fn part(rows: &[Row], from: usize, to: usize) -> &[Row]
    ensures { result.now ≡ between from to rows.now }
{
    let end = to.min(rows.len());
    &rows[from.min(end)..end]
}

/// Opens a sheet over a model and a scale, in buffers of its own, and answers the asks of a script.
pub(crate) fn run<M: Model, S: Scale>(
    model: &M,
    scale: &S,
    body: &Body,
) -> Result<ArrayVec<Answer, 8>, TextFault>
    ensures { listed result ≡ ask_all (M.meaning model.now) (S.grades scale.now) (said_in body.now) }
{
    let sheet = Sheet::open(model, scale).map_err(|fault| AtLine { line: 2, fault })?;
    let mut desk = Desk {
        model,
        scale,
        sheet,
        records: [Row::default(); 32],
        bytes: [0; 16384],
    };
    desk.ask_all(body)
}
