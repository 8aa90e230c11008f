//! A client of the sheet: what it promises of its answer is proved from the laws of the sheet's calls alone, and what it refuses
//! is what they refuse.
#![tactic(auto)]

ghost use Rattle.std.specs.Prelude.{◌≡◌, length, IfOk, IfErr};
ghost use Rattle.sheet.specs.Over.{outcome};
ghost use Rattle.client.specs.Promise.{Judged, refused};

use engine::operator::Operator;
use model::interface::Model;
use scale::scales::Scale;
use sheet::fault::SheetFault;
use sheet::kinds::Kind;
use sheet::row::Row;
use sheet::sheet::Sheet;

/// How far a proposition never holds, and a run on which it does.
#[derive(Clone, Copy, PartialEq, Eq, Debug)]
pub struct Verdict {
    pub degree: u8,
    pub run: Option<(u16, u16)>,
}

// Model, scale, rows and bytes one by one, as each call of the sheet takes them: the user's form.
/// How far does proposition `p` never hold on the walks from a state, and which run breaks a level?
/// Refused are, in this order: a model that cannot be walked, buffers too short for one row, a proposition that is not there,
/// buffers too short for three rows, and a state that is not there.
pub fn never_holds<M: Model, S: Scale>(
    model: &M,
    scale: &S,
    rows: &mut [Row],
    bytes: &mut [u8],
    p: u8,
    state: u16,
    level: u8,
    out: &mut [u16],
) -> Result<Verdict, SheetFault>
    ensures judged { IfOk result (λ v. Judged (M.meaning model.now) (S.grades scale.now) p state level out.old out.new v) }
    ensures still { IfErr result (λ _. out.new ≡ out.old) }
    ensures refuses { outcome result ≡ refused (M.meaning model.now) (length rows.old) (length bytes.old) p state }
{
    let mut sheet = Sheet::open(model, scale)?;
    let holds = Row::of(Kind::Prop, p, 0);
    let held = sheet.enter(model, scale, rows, bytes, holds)?;
    let not = Row::of(Kind::Not, held, 0);
    let free = sheet.enter(model, scale, rows, bytes, not)?;
    let always = Row::of(Kind::A(Operator::Globally), free, 0);
    let never = sheet.enter(model, scale, rows, bytes, always)?;
    let degree = sheet.degree(bytes, never, state)?;
    let run = sheet
        .walk(model, scale, rows, bytes, never, state, level, out)
        .ok();
    Ok(Verdict { degree, run })
}
