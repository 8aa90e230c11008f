//! Lines.
ghost use Rattle.std.specs.Prelude.{◌≡◌, ◌+◌, ◌<◌, false, length, IfOk, OnOk, Ok, Err, if◌then◌else◌, nat_le};
ghost use Rattle.text.specs.Lines.{end_at, head_at, numbers_at, scale_at, source_at, step_at, holds_at, ask_at, rest_at, line_at, lines_at, nothing, spare};
ghost use Rattle.text.specs.Reads.{beside, beside_by, with, within};
ghost use Rattle.text.specs.Scripts.{said_in};
ghost use Rattle.text.specs.declared.fault.ReadFault.TheVariants.{Many};
ghost use Rattle.text.specs.declared.script.Source.TheVariants.{Table as OfTable};

use super::Reader;
use crate::fault::ReadFault;
use crate::script::{Ask, Body, Source};
use arrayvec::ArrayVec;
use model::table::{Holding, Step};
use std::ops::Range;

/// `Ok` if the list has room for one item more, else the fault that the bracket at `place` is one too many.
fn room<T, const N: usize>(list: &ArrayVec<T, N>, place: usize) -> Result<(), ReadFault>
    ensures { result ≡ (if nat_le N (length list.now.items) then Err (Many place) else Ok tt) }
{
    if list.is_full() {
        return Err(ReadFault::Many(place));
    }
    Ok(())
}

// Numbers are narrowed by `as`: each is known to fit, and `try_from` would have an error that cannot come.
// Each part by `let .. else`, as in `reader.rt`.
impl Reader<'_> {
    /// Takes the closing bracket of a line and the line's end.
    fn end(&mut self) -> Result<(), ReadFault>
        ensures { beside result self.new.rest.now ≡ end_at self.old.rest.now }
    {
        let Some(()) = self.word(b")\n") else {
            return Err(self.unfit());
        };
        Ok(())
    }

    /// Takes a line's word and a gap.
    fn head(&mut self, word: &[u8]) -> Result<(), ReadFault>
        ensures { beside result self.new.rest.now ≡ head_at word.now false 0 self.old.rest.now }
    {
        let Some(()) = self.word(word) else {
            return Err(self.unfit());
        };
        let Some(()) = self.gap() else {
            return Err(self.unfit());
        };
        Ok(())
    }

    /// Takes the two numbers of a line and the line's end.
    fn pair(&mut self, first: Range<u16>, second: Range<u16>) -> Result<(u16, u16), ReadFault>
        ensures reads { beside result self.new.rest.now ≡ numbers_at (within first.start first.end) (within second.start second.end) self.old.rest.now }
        ensures small { IfOk result (λ p. (p.0 < first.end) × (p.1 < second.end)) }
    {
        let x = self.number(first)?;
        let Some(()) = self.gap() else {
            return Err(self.unfit());
        };
        let y = self.number(second)?;
        self.end()?;
        Ok((x, y))
    }

    /// Takes the line of the scale, and gives its levels.
    pub(crate) fn scale(&mut self) -> Result<u8, ReadFault>
        ensures { beside result self.new.rest.now ≡ scale_at self.old.rest.now }
    {
        self.head(b"(scale")?;
        let place = self.rest.len();
        let Some(d) = self.numeral() else {
            return Err(self.unfit());
        };
        if !matches!(d, 1 | 4) {
            return Err(ReadFault::Range(place));
        }
        self.end()?;
        Ok(d as u8)
    }

    /// Takes the line of the model.
    pub(crate) fn source(&mut self) -> Result<Source, ReadFault>
        ensures { beside result self.new.rest.now ≡ source_at self.old.rest.now }
    {
        let Some(()) = self.word(b"(") else {
            return Err(self.unfit());
        };
        if self.peek() == Some(b't') {
            self.head(b"table")?;
            let (n, p) = self.pair(1..513, 0..65)?;
            return Ok(Source::Table(n, p as u8));
        }
        self.head(b"pool")?;
        let (k, g) = self.pair(1..5, 0..2)?;
        Ok(Source::Pool(k as u8, g as u8))
    }

    // `step` and `holds` stay two: one over both would take word, list, ranges and a closure that makes the record.
    /// Takes a step line of a table with `n` states, after its opening bracket, which is at `place`, and keeps the step.
    fn step(
        &mut self,
        steps: &mut ArrayVec<Step, 1024>,
        n: u16,
        place: usize,
    ) -> Result<(), ReadFault>
        ensures reads { with result steps.new.items self.new.rest.now ≡ step_at n place steps.old.items self.old.rest.now }
        ensures more { OnOk result ((length steps.old.items < 1024) × (length steps.new.items ≡ length steps.old.items + 1)) }
    {
        self.head(b"step")?;
        room(steps, place)?;
        let (from, to) = self.pair(0..n, 0..n)?;
        steps.push(Step { from, to });
        Ok(())
    }

    /// Takes a holding line of a table with `n` states and `props` propositions, and keeps the holding.
    fn holds(
        &mut self,
        holdings: &mut ArrayVec<Holding, 1024>,
        n: u16,
        props: u8,
        place: usize,
    ) -> Result<(), ReadFault>
        ensures reads { with result holdings.new.items self.new.rest.now ≡ holds_at n props place holdings.old.items self.old.rest.now }
        ensures more { OnOk result ((length holdings.old.items < 1024) × (length holdings.new.items ≡ length holdings.old.items + 1)) }
    {
        self.head(b"holds")?;
        room(holdings, place)?;
        let (prop, state) = self.pair(0..u16::from(props), 0..n)?;
        holdings.push(Holding {
            prop: prop as u8,
            state,
        });
        Ok(())
    }

    // `ask`, `of_table` and `line` each say that one line fewer can follow: the loop over lines ends by it. The bracket's
    // place goes with each, since a list that is full is found only after word and gap.
    /// Takes an ask line, and keeps the ask and the rows of its formula.
    fn ask(&mut self, body: &mut Body, place: usize) -> Result<(), ReadFault>
        ensures reads { with result (said_in body.new) self.new.rest.now ≡ ask_at place (said_in body.old) self.old.rest.now }
        ensures more { OnOk result (spare (said_in body.new) + 1 ≡ spare (said_in body.old)) }
    {
        self.head(b"ask")?;
        room(&body.asks, place)?;
        let Some(state) = self.numeral() else {
            return Err(self.unfit());
        };
        let Some(()) = self.gap() else {
            return Err(self.unfit());
        };
        let row = self.formula(&mut body.rows, 16)?;
        self.end()?;
        body.asks.push(Ask { state, row });
        Ok(())
    }

    /// Takes a line of a table's body, after its opening bracket: steps and holdings come before the first ask.
    fn of_table(
        &mut self,
        n: u16,
        props: u8,
        body: &mut Body,
        place: usize,
    ) -> Result<(), ReadFault>
        ensures reads { with result (said_in body.new) self.new.rest.now ≡ rest_at (OfTable n props) place (said_in body.old) self.old.rest.now }
        ensures more { OnOk result (spare (said_in body.new) + 1 ≡ spare (said_in body.old)) }
    {
        match self.peek() {
            Some(b's') if body.asks.is_empty() => self.step(&mut body.steps, n, place),
            Some(b'h') if body.asks.is_empty() => self.holds(&mut body.holdings, n, props, place),
            _ => self.ask(body, place),
        }
    }

    /// Takes one line after the model's.
    fn line(&mut self, source: Source, body: &mut Body) -> Result<(), ReadFault>
        ensures reads { with result (said_in body.new) self.new.rest.now ≡ line_at source (said_in body.old) self.old.rest.now }
        ensures more { OnOk result (spare (said_in body.new) + 1 ≡ spare (said_in body.old)) }
    {
        let place = self.rest.len();
        let Some(()) = self.word(b"(") else {
            return Err(self.unfit());
        };
        match source {
            Source::Table(n, props) => self.of_table(n, props, body, place),
            Source::Pool(_, _) => self.ask(body, place),
        }
    }

    // Into the caller's body: one that is made here and answered is copied once more.
    /// Takes the lines after the model's, to the end of the text.
    pub(crate) fn lines(&mut self, source: Source, body: &mut Body) -> Result<(), ReadFault>
        requires { said_in body.old ≡ nothing }
        ensures { with result (said_in body.new) self.new.rest.now ≡ lines_at source 2057 nothing self.old.rest.now }
    {
        while !self.rest.is_empty() {
            self.line(source, body)?;
        }
        Ok(())
    }
}
