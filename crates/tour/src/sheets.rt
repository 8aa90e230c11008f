//! Rows entered on sheets, and calls that are refused.
use crate::models::{ALTERNATING, BREAKING, STAYING, STILL};
use engine::operator::Operator;
use model::interface::Model;
use model::pair::Pair;
use model::pool::Pool;
use scale::digits::digits;
use scale::scales::{Boolean, FiveValued, Scale};
use sheet::fault::SheetFault;
use sheet::kinds::Kind;
use sheet::row::Row;
use sheet::sheet::Sheet;
use std::io;

const EX: Kind = Kind::E(Operator::Next);

const EF: Kind = Kind::E(Operator::Finally);

const EG: Kind = Kind::E(Operator::Globally);

const AG: Kind = Kind::A(Operator::Globally);

const AW: Kind = Kind::A(Operator::Weak);

/// Prints a refusal.
fn refused(rt: &HostRuntime, text: &str, fault: SheetFault) -> io::Result<()> {
    println!(rt;
        "  {text}: refused with {}, value {}",
        fault.number(),
        fault.value()
    )
}

/// A sheet that is open over a model and a scale, with its buffers.
#[derive(Drop)]
pub(crate) struct Desk<'a, M, S> {
    pub(crate) rt: &'a HostRuntime,
    pub(crate) model: &'a M,
    scale: &'a S,
    sheet: Sheet,
    rows: &'a mut [Row],
    bytes: &'a mut [u8],
}

impl<M: Model, S: Scale> Desk<'_, M, S> {
    /// Enters a row and prints its degrees, or the refusal.
    fn enter(&mut self, row: Row, text: &str) -> io::Result<()> {
        let entered = self
            .sheet
            .enter(self.model, self.scale, self.rows, self.bytes, row);
        self.tell(text, entered)
    }

    /// Enters one row after another.
    pub(crate) fn enter_all(&mut self, asked: &[(Row, &str)]) -> io::Result<()> {
        for (row, text) in asked {
            self.enter(*row, text)?;
        }
        Ok(())
    }

    /// A walk that meets a level of a row, or breaks it.
    pub(crate) fn walk(
        &self,
        row: u8,
        state: u16,
        level: u8,
        out: &mut [u16],
    ) -> Result<(u16, u16), SheetFault> {
        self.sheet.walk(
            self.model, self.scale, self.rows, self.bytes, row, state, level, out,
        )
    }

    /// Prints the degrees of a row that was entered, or the refusal.
    fn tell(&self, text: &str, entered: Result<u8, SheetFault>) -> io::Result<()> {
        match entered {
            Ok(number) => {
                print!(self.rt; "  row {number}, {text}:")?;
                self.degrees(number)
            }
            Err(fault) => refused(self.rt, text, fault),
        }
    }

    /// Prints why a row has no degree at state 0, if it has none.
    fn tell_refusal(&self, row: u8, text: &str) -> io::Result<()> {
        if let Err(fault) = self.sheet.degree(self.bytes, row, 0) {
            refused(self.rt, text, fault)?;
        }
        Ok(())
    }

    /// The degrees of a row at the first four states.
    fn degrees(&self, row: u8) -> io::Result<()> {
        for s in 0..4 {
            if let Ok(degree) = self.sheet.degree(self.bytes, row, s)
                && let Some(text) = digits(self.scale.levels(), degree)
            {
                print!(self.rt; " {s}={text}")?;
            }
        }
        println!(self.rt; "")
    }
}

/// Opens a sheet, and then works at its desk, or prints the refusal.
pub(crate) fn opened<M: Model, S: Scale, F: FnOnce(&mut Desk<M, S>) -> io::Result<()>>(
    rt: &HostRuntime,
    model: &M,
    scale: &S,
    rows: &mut [Row],
    bytes: &mut [u8],
    then: F,
) -> io::Result<()>
    requires { F.IsAlwaysCallable then }
{
    match Sheet::open(model, scale) {
        Ok(sheet) => then(&mut Desk {
            rt,
            model,
            scale,
            sheet,
            rows,
            bytes,
        }),
        Err(fault) => refused(rt, "open", fault),
    }
}

/// Opens a sheet with room for four rows, and enters these.
fn four_rows<M: Model, S: Scale>(
    rt: &HostRuntime,
    model: &M,
    scale: &S,
    bytes: &mut [u8],
    asked: &[(Row, &str)],
) -> io::Result<()> {
    let rows = &mut [Row::default(); 4];
    opened(rt, model, scale, rows, bytes, |desk| desk.enter_all(asked))
}

// Each of the next three is a table of rows under its own name.
/// Proposition 0, always on every walk, on some walk, and after a step.
fn about_p0<M: Model>(rt: &HostRuntime, model: &M) -> io::Result<()> {
    let asked = [
        (Row::of(Kind::Prop, 0, 0), "p0"),
        (Row::of(AG, 0, 0), "AG p0"),
        (Row::of(EG, 0, 0), "EG p0"),
        (Row::of(EX, 0, 0), "EX p0"),
    ];
    four_rows(rt, model, &FiveValued, &mut [0; 12], &asked)
}

// Two numbers, as a `Pool` has them.
/// Is a frame ever torn?
fn about_torn(rt: &HostRuntime, buffers: u8, guard: u8) -> io::Result<()> {
    let asked = [
        (Row::of(Kind::Prop, 0, 0), "p0"),
        (Row::of(Kind::Not, 0, 0), "not p0"),
        (Row::of(AG, 1, 0), "AG not p0"),
        (Row::of(EF, 0, 0), "EF p0"),
    ];
    let pool = Pool { buffers, guard };
    four_rows(rt, &pool, &FiveValued, &mut [0; 16384], &asked)
}

/// The table of two states on the Boolean scale.
fn yes_or_no(rt: &HostRuntime) -> io::Result<()> {
    let asked = [
        (Row::of(Kind::Prop, 0, 0), "p0"),
        (Row::of(AG, 0, 0), "AG p0"),
        (Row::of(EX, 0, 0), "EX p0"),
        (Row::of(Kind::Imp, 1, 2), "AG p0 imp EX p0"),
    ];
    four_rows(rt, &ALTERNATING, &Boolean, &mut [0; 8], &asked)
}

/// Rows over the table of two states, and what is refused there.
fn two_states<M: Model>(desk: &mut Desk<M, FiveValued>) -> io::Result<()> {
    desk.enter_all(&[
        (Row::of(Kind::Prop, 0, 0), "p0"),
        (Row::of(AG, 0, 0), "AG p0"),
        (Row::of(Kind::Not, 1, 0), "not AG p0"),
        (Row::of(AW, 0, 1), "p0 AW AG p0"),
        (Row::of(EX, 0, 0), "EX p0"),
        (Row::of(Kind::Imp, 1, 4), "AG p0 imp EX p0"),
        (
            // By number: no `Kind` is the sixteenth.
            Row {
                kind: 16,
                ..Row::default()
            },
            "a sixteenth kind",
        ),
        (Row::of(Kind::Prop, 1, 0), "a second proposition"),
        (Row::of(Kind::Not, 6, 0), "not of itself"),
    ])?;
    let p0 = Row::of(Kind::Prop, 0, 0);
    let other = Pool {
        buffers: 1,
        guard: 0,
    };
    let entered = desk
        .sheet
        .enter(&other, desk.scale, desk.rows, desk.bytes, p0);
    desk.tell("over another model", entered)?;
    let short = &mut [0; 13];
    let entered = desk
        .sheet
        .enter(desk.model, desk.scale, desk.rows, short, p0);
    desk.tell("with a byte too few", entered)?;
    spoiled(desk)
}

/// A byte of row 1 is spoiled, and the row is read.
fn spoiled<M: Model>(desk: &mut Desk<M, FiveValued>) -> io::Result<()> {
    if let Some(byte) = desk.bytes.get_mut(3) {
        *byte = 5;
    }
    desk.enter(Row::of(Kind::Not, 1, 0), "not of a row with a spoiled byte")?;
    desk.tell_refusal(6, "the degree of row 6")
}

/// Sheets over tables and a pair.
pub(crate) fn tables(rt: &HostRuntime) -> io::Result<()> {
    println!(rt; "A sheet over the table of three states:")?;
    about_p0(rt, &STAYING)?;
    println!(rt; "Over the table of two states:")?;
    let rows = &mut [Row::default(); 7];
    opened(
        rt,
        &ALTERNATING,
        &FiveValued,
        rows,
        &mut [0; 14],
        two_states,
    )?;
    println!(rt; "Over the same on the Boolean scale:")?;
    yes_or_no(rt)?;
    println!(rt; "Over the pair of a one-state loop with it:")?;
    about_p0(
        rt,
        &Pair {
            first: STILL,
            second: ALTERNATING,
        },
    )?;
    println!(rt; "Over the table with a dead end:")?;
    about_p0(rt, &BREAKING)
}

/// Sheets over pools, at their first four states.
pub(crate) fn pools(rt: &HostRuntime) -> io::Result<()> {
    println!(rt; "A sheet over a pool of one buffer:")?;
    about_torn(rt, 1, 0)?;
    println!(rt; "With a guard:")?;
    about_torn(rt, 1, 1)?;
    println!(rt; "Over a pool of two buffers:")?;
    about_torn(rt, 2, 0)?;
    println!(rt; "Over a pool of six buffers:")?;
    about_torn(rt, 6, 0)?;
    println!(rt; "With a guard:")?;
    about_torn(rt, 6, 1)?;
    println!(rt; "Over a pool of seven buffers:")?;
    about_torn(rt, 7, 0)
}
