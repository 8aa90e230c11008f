//! Walks: granted exactly where the degrees say so, and each that is granted replayed by the judge.
use super::replays::{Reach, Replay};
use super::tables::{ROUND, STAYING, STILL, pool};
use engine::operator::Operator;
use model::interface::Model;
use model::pair::Pair;
use model::table::{Step, Table};
use scale::scales::{Boolean, FiveValued, Scale};
use sheet::fault::SheetFault;
use sheet::kinds::{KINDS, Kind};
use sheet::row::Row;
use sheet::sheet::Sheet;
use std::process::Abort;

/// Operands: proposition 0, its opposite, and two rows whose degrees lie between.
const OPERANDS: [(Kind, u8); 4] = [
    (Kind::Prop, 0),
    (Kind::Not, 0),
    (Kind::A(Operator::Globally), 0),
    (Kind::E(Operator::Globally), 1),
];

/// Which of them the path rows are over.
const PAIRS: [(u8, u8); 5] = [(0, 1), (1, 0), (2, 1), (1, 2), (3, 2)];

/// A sheet, the model and the scale that it is over, and its buffers: room for 64 rows of 16 states.
#[derive(Drop)]
struct Desk<'a, M, S> {
    model: &'a M,
    scale: &'a S,
    sheet: Sheet,
    rows: [Row; 64],
    bytes: [u8; 1024],
}

impl<M: Model, S: Scale> Desk<'_, M, S> {
    fn enter(&mut self, row: Row) -> Result<u8, SheetFault> {
        self.sheet.enter(self.model, self.scale, &mut self.rows, &mut self.bytes, row)
    }

    /// Where a row reaches a level.
    fn reach(&self, row: u8, level: u8) -> Reach<'_> {
        let n = usize::from(self.model.states());
        let start = usize::from(row) * n;
        let degrees = self.bytes.get(start..start + n).unwrap_or(&[]);
        Reach { degrees, level }
    }

    /// A walk at a level is granted, for an E row, exactly up to its degree, for an A row exactly above it, and does what it should.
    fn request(
        &self,
        rt: &impl Abort,
        (some, operator): (bool, Operator),
        (row, a, b): (u8, u8, u8),
        state: u16,
        level: u8,
    ) -> Result<(), SheetFault> {
        let mut out = [9999u16; 32];
        let degree = self.sheet.degree(&self.bytes, row, state)?;
        let walk = self.sheet.walk(
            self.model,
            self.scale,
            &self.rows,
            &self.bytes,
            row,
            state,
            level,
            &mut out,
        );
        assert_eq!(rt; walk.is_ok(), (level <= degree) == some);
        match walk {
            Err(fault) => assert_eq!(rt; fault, SheetFault::NoWalk),
            Ok(counts) => {
                let does = match (Replay::of(&out, counts), self.scale.reading(level)) {
                    (Some(replay), Some(reading)) => {
                        replay.goes(self.model, state)
                            && replay.meets(
                                operator,
                                reading,
                                self.reach(a, level),
                                self.reach(b, level),
                            ) == some
                    }
                    _ => false,
                };
                assert!(rt; does);
            }
        }
        Ok(())
    }

    /// Every request for a walk of a row.
    fn requests(
        &mut self,
        rt: &impl Abort,
        kind: Kind,
        (a, b): (u8, u8),
    ) -> Result<(), SheetFault> {
        let asked = match kind {
            Kind::E(operator) => (true, operator),
            Kind::A(operator) => (false, operator),
            _ => return Err(SheetFault::NoPath),
        };
        let second = if kind.is_binary() { b } else { 0 };
        let row = self.enter(Row::of(kind, a, second))?;
        for state in 0..self.model.states() {
            for level in 1..=self.scale.levels() {
                self.request(rt, asked, (row, a, b), state, level)?;
            }
        }
        Ok(())
    }
}

/// Asks for walks of all ten kinds that ask for them, over the pairs of operands, at each state and level.
fn all_walks<M: Model, S: Scale>(rt: &impl Abort, model: &M, scale: &S) -> Result<(), SheetFault> {
    let sheet = Sheet::open(model, scale)?;
    let mut desk = Desk {
        model,
        scale,
        sheet,
        rows: [Row::default(); 64],
        bytes: [0; 1024],
    };
    for (kind, a) in OPERANDS {
        desk.enter(Row::of(kind, a, 0))?;
    }
    for info in &KINDS[5..] {
        for pair in PAIRS {
            desk.requests(rt, info.kind, pair)?;
        }
    }
    Ok(())
}

#[test]
fn walks_on_three_states(rt: HostRuntime) {
    assert_eq!(rt; all_walks(&rt, &STAYING, &FiveValued), Ok(()));
    assert_eq!(rt; all_walks(&rt, &STAYING, &Boolean), Ok(()));
}

#[test]
fn walks_on_two_states(rt: HostRuntime) {
    assert_eq!(rt; all_walks(&rt, &ROUND, &FiveValued), Ok(()));
}

#[test]
fn walks_on_pools(rt: HostRuntime) {
    assert_eq!(rt; all_walks(&rt, &pool(1, 0), &FiveValued), Ok(()));
    assert_eq!(rt; all_walks(&rt, &pool(1, 1), &FiveValued), Ok(()));
    assert_eq!(rt; all_walks(&rt, &pool(2, 0), &FiveValued), Ok(()));
}

#[test]
fn walks_on_pairs(rt: HostRuntime) {
    let first = STAYING;
    let second = ROUND;
    assert_eq!(rt;
        all_walks(&rt, &Pair { first, second }, &FiveValued),
        Ok(())
    );
    let first = STILL;
    assert_eq!(rt;
        all_walks(&rt, &Pair { first, second }, &FiveValued),
        Ok(())
    );
}

/// Asks for a walk from state 0 that breaks a level of AG over an operand, p0 (0) or not p0 (1), and replays it.
fn broken<M: Model>(model: &M, operand: u8, level: u8) -> Result<bool, u8> {
    let mut rows = [Row::default(); 3];
    let mut bytes = [0u8; 12288];
    let mut out = [0u16; 8192];
    let (sheet, row) = always(model, operand, &mut rows, &mut bytes).map_err(SheetFault::number)?;
    let counts = sheet
        .walk(model, &FiveValued, &rows, &bytes, row, 0, level, &mut out)
        .map_err(SheetFault::number)?;
    let n = usize::from(model.states());
    let start = usize::from(operand) * n;
    let degrees = bytes.get(start..start + n).unwrap_or(&[]);
    let left = Reach { degrees, level };
    match (Replay::of(&out, counts), FiveValued.reading(level)) {
        (Some(replay), Some(reading)) => {
            let met = replay.meets(Operator::Globally, reading, left, left);
            Ok(replay.goes(model, 0) && !met)
        }
        _ => Ok(false),
    }
}

/// A sheet with p0, not p0, and AG over one of them, and the number of the last row.
fn always<M: Model>(
    model: &M,
    operand: u8,
    rows: &mut [Row],
    bytes: &mut [u8],
) -> Result<(Sheet, u8), SheetFault> {
    let mut sheet = Sheet::open(model, &FiveValued)?;
    let p0 = Row::of(Kind::Prop, 0, 0);
    sheet.enter(model, &FiveValued, rows, bytes, p0)?;
    let not = Row::of(Kind::Not, 0, 0);
    sheet.enter(model, &FiveValued, rows, bytes, not)?;
    let always = Row::of(Kind::A(Operator::Globally), operand, 0);
    let row = sheet.enter(model, &FiveValued, rows, bytes, always)?;
    Ok((sheet, row))
}

#[test]
fn always_p0_is_broken_at_level_4_alone(rt: HostRuntime) {
    assert_eq!(rt; broken(&STAYING, 0, 4), Ok(true));
    assert_eq!(rt; broken(&STAYING, 0, 3), Err(13));
    assert_eq!(rt; broken(&STAYING, 0, 1), Err(13));
    assert_eq!(rt; broken(&STAYING, 0, 0), Err(10));
    assert_eq!(rt; broken(&STAYING, 0, 5), Err(10));
}

#[test]
fn runs_that_tear_a_frame_in_4096_states(rt: HostRuntime) {
    let six = pool(6, 0);
    assert_eq!(rt; broken(&six, 1, 1), Err(13));
    assert_eq!(rt; broken(&six, 1, 2), Ok(true));
    assert_eq!(rt; broken(&six, 1, 4), Ok(true));
    assert_eq!(rt; broken(&pool(6, 1), 1, 4), Err(13));
    let boards = Pair {
        first: pool(3, 1),
        second: pool(3, 0),
    };
    assert_eq!(rt; broken(&boards, 1, 4), Err(13));
    let boards = Pair {
        first: pool(3, 0),
        second: pool(3, 1),
    };
    assert_eq!(rt; broken(&boards, 1, 1), Err(13));
    assert_eq!(rt; broken(&boards, 1, 3), Ok(true));
}

/// The table of two states with a dead end in place of one step.
const STUCK: Table<'static> = Table {
    steps: &[Step { from: 0, to: 1 }],
    ..ROUND
};

/// What is asked of a walk: a row, a state and a level, and how many rows, bytes and places of the buffers are lent.
type Asked = (u8, u16, u8, usize, usize, usize);

/// The number with which a request is refused on a sheet over the table of two states that has p0, EX p0, AG p0 and a
/// row with a spoiled operand, asked over this model, or 0.
fn refusal<M: Model>(model: &M, asked: Asked) -> u8 {
    match request(model, asked) {
        Ok(_) => 0,
        Err(fault) => fault.number(),
    }
}

fn request<M: Model>(model: &M, asked: Asked) -> Result<(u16, u16), SheetFault> {
    let (row, state, level, lent_rows, lent_bytes, room) = asked;
    let mut rows = [Row::default(); 5];
    let mut bytes = [0u8; 10];
    let mut out = [0u16; 4];
    let mut sheet = Sheet::open(&ROUND, &FiveValued)?;
    for row in [
        Row::of(Kind::Prop, 0, 0),
        Row::of(Kind::E(Operator::Next), 0, 0),
        Row::of(Kind::A(Operator::Globally), 0, 0),
        Row::of(Kind::A(Operator::Globally), 1, 0),
        Row::of(Kind::A(Operator::Globally), 2, 0),
    ] {
        sheet.enter(&ROUND, &FiveValued, &mut rows, &mut bytes, row)?;
    }
    bytes[3] = 5;
    rows[4].a = 4;
    let rows = rows.get(..lent_rows).unwrap_or(&[]);
    let bytes = bytes.get(..lent_bytes).unwrap_or(&[]);
    let room = room.min(4);
    sheet.walk(
        model,
        &FiveValued,
        rows,
        bytes,
        row,
        state,
        level,
        &mut out[..room],
    )
}

#[test]
fn requests_are_refused_in_the_order_of_the_checks(rt: HostRuntime) {
    let other = pool(1, 0);
    let full = (2, 0, 3, 5, 10, 4);
    assert_eq!(rt; refusal(&ROUND, full), 0);
    assert_eq!(rt;
        refusal(&ROUND, (2, 0, 2, 5, 10, 4)),
        13,
        "AG p0 has degree 2"
    );
    assert_eq!(rt; refusal(&other, (9, 9, 9, 0, 0, 0)), 3);
    assert_eq!(rt; refusal(&STUCK, (9, 9, 9, 0, 0, 0)), 2);
    assert_eq!(rt; refusal(&ROUND, (5, 0, 9, 0, 0, 0)), 8);
    assert_eq!(rt; refusal(&ROUND, (0, 2, 9, 0, 0, 0)), 8);
    assert_eq!(rt; refusal(&ROUND, (0, 0, 9, 4, 10, 0)), 4);
    assert_eq!(rt; refusal(&ROUND, (0, 0, 9, 5, 9, 0)), 4);
    assert_eq!(rt; refusal(&ROUND, (0, 0, 9, 5, 10, 0)), 11);
    assert_eq!(rt;
        refusal(&ROUND, (3, 0, 9, 5, 10, 0)),
        9,
        "a spoiled byte of EX p0"
    );
    assert_eq!(rt;
        refusal(&ROUND, (4, 0, 9, 5, 10, 0)),
        9,
        "an operand that is the row itself"
    );
    assert_eq!(rt; refusal(&ROUND, (2, 0, 0, 5, 10, 0)), 10);
    assert_eq!(rt; refusal(&ROUND, (2, 0, 5, 5, 10, 0)), 10);
    assert_eq!(rt; refusal(&ROUND, (2, 0, 2, 5, 10, 3)), 12);
}
