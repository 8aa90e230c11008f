//! Rows entered on a sheet. Each refusal is a test under its own name.
// Model, scale, rows and bytes one by one, as each call of the sheet takes them: the user's form.
use super::tables::pool;
use engine::operator::Operator;
use model::interface::Model;
use model::pair::Pair;
use scale::scales::FiveValued;
use sheet::fault::SheetFault;
use sheet::kinds::{KINDS, Kind};
use sheet::row::Row;
use sheet::sheet::Sheet;

/// Proposition 0.
fn p0() -> Row {
    Row::of(Kind::Prop, 0, 0)
}

/// The degree of AG not p0 at state 0.
fn never_p0<M: Model>(model: &M) -> Result<u8, SheetFault> {
    let mut rows = [Row::default(); 3];
    let mut bytes = [255u8; 12288];
    let scale = FiveValued;
    let mut sheet = Sheet::open(model, &scale)?;
    let a = sheet.enter(model, &scale, &mut rows, &mut bytes, p0())?;
    let not = Row::of(Kind::Not, a, 0);
    let b = sheet.enter(model, &scale, &mut rows, &mut bytes, not)?;
    let always = Row::of(Kind::A(Operator::Globally), b, 0);
    let c = sheet.enter(model, &scale, &mut rows, &mut bytes, always)?;
    sheet.degree(&bytes, c, 0)
}

// By number: the numbers are what is promised, and a variant would hide a wrong one.
/// A number, or the number of a fault.
type Answer = Result<u8, u8>;

/// The answer, with the fault's number in place of the fault.
fn told(answer: Result<u8, SheetFault>) -> Answer {
    answer.map_err(SheetFault::number)
}

#[test]
fn no_torn_frame_on_a_sheet(rt: HostRuntime) {
    assert_eq!(rt; told(never_p0(&pool(6, 1))), Ok(4));
    assert_eq!(rt; told(never_p0(&pool(6, 0))), Ok(1));
    assert_eq!(rt; told(never_p0(&pool(7, 0))), Err(1));
}

#[test]
fn no_torn_frame_in_two_pools_of_three(rt: HostRuntime) {
    let boards = Pair {
        first: pool(3, 1),
        second: pool(3, 1),
    };
    assert_eq!(rt; told(never_p0(&boards)), Ok(4));
}

/// Enters proposition 0 of a pool of one buffer, 4 states, `count` times and once more.
fn enter_often(rows: &mut [Row], bytes: &mut [u8], count: u8) -> Result<u8, SheetFault> {
    let model = pool(1, 0);
    let scale = FiveValued;
    let mut sheet = Sheet::open(&model, &scale)?;
    for _ in 0..count {
        sheet.enter(&model, &scale, rows, bytes, p0())?;
    }
    sheet.enter(&model, &scale, rows, bytes, p0())
}

#[test]
fn a_sheet_has_128_rows(rt: HostRuntime) {
    assert_eq!(rt;
        told(enter_often(&mut [Row::default(); 130], &mut [0; 520], 127)),
        Ok(127)
    );
    assert_eq!(rt;
        told(enter_often(&mut [Row::default(); 130], &mut [0; 520], 128)),
        Err(4)
    );
}

#[test]
fn a_buffer_one_short_is_refused(rt: HostRuntime) {
    assert_eq!(rt;
        told(enter_often(&mut [Row::default(); 2], &mut [0; 8], 1)),
        Ok(1)
    );
    assert_eq!(rt;
        told(enter_often(&mut [Row::default(); 1], &mut [0; 8], 1)),
        Err(4)
    );
    assert_eq!(rt;
        told(enter_often(&mut [Row::default(); 2], &mut [0; 7], 1)),
        Err(4)
    );
}

/// Enters proposition 0, spoils the byte of state 1, and enters a row that reads it, over this model.
fn read_spoiled<M: Model>(
    sheet: &mut Sheet,
    model: &M,
    bytes: &mut [u8; 8],
) -> Result<u8, SheetFault> {
    let first = pool(1, 0);
    let scale = FiveValued;
    let mut rows = [Row::default(); 2];
    let a = sheet.enter(&first, &scale, &mut rows, bytes, p0())?;
    bytes[1] = 5;
    sheet.enter(model, &scale, &mut rows, bytes, Row::of(Kind::Not, a, 0))
}

/// What that answers, what asking for the second row at state 0 answers then, and the first byte of that row.
fn spoiled<M: Model>(model: &M) -> Result<(Answer, Answer, u8), SheetFault> {
    let mut bytes = [7u8; 8];
    let mut sheet = Sheet::open(&pool(1, 0), &FiveValued)?;
    let answer = told(read_spoiled(&mut sheet, model, &mut bytes));
    Ok((answer, told(sheet.degree(&bytes, 1, 0)), bytes[4]))
}

#[test]
fn a_spoiled_byte_is_refused_and_changes_nothing(rt: HostRuntime) {
    assert_eq!(rt; spoiled(&pool(1, 0)), Ok((Err(9), Err(8), 7)));
}

#[test]
fn another_model_is_refused_first(rt: HostRuntime) {
    assert_eq!(rt; spoiled(&pool(2, 0)), Ok((Err(3), Err(8), 7)));
}

#[test]
fn kinds_are_numbered_from_1_in_the_order_of_the_table(rt: HostRuntime) {
    assert_eq!(rt; KINDS.len(), 15);
    for (number, kind) in (1..=15u8).zip(KINDS) {
        assert_eq!(rt; kind.number, number);
    }
}

#[test]
fn kinds_have_the_names_of_the_logic(rt: HostRuntime) {
    let names = [
        "p", "or", "and", "not", "imp", "EX", "EF", "EG", "EU", "EW", "AX", "AF", "AG", "AU", "AW",
    ];
    for (kind, name) in KINDS.iter().zip(names) {
        assert_eq!(rt; kind.name, name);
    }
}
