//! A text and its degrees.
ghost use Rattle.std.specs.Prelude.{◌≡◌};
ghost use Rattle.text.specs.Scripts.{said_in, told_in, script_at, answer_of};
ghost use Rattle.listing.specs.Faults.{told, placed};
ghost use Rattle.listing.specs.Listings.{given_in, script_in, script_of, answers_to};
ghost use Rattle.listing.specs.Runs.{ask_all, grades_of, answers_of};
ghost use Rattle.listing.specs.Sheets.{listed};

use crate::answers::{Answer, Answers};
use crate::asking::run;
use crate::fault::TextFault;
use crate::place::place_of;
use arrayvec::ArrayVec;
use model::interface::Model;
use model::pool::Pool;
use scale::scales::{Boolean, FiveValued};
use text::fault::ReadFault;
use text::read::read;
use text::script::{Body, Script, Source};

/// The reader's fault, at its line and column.
// Not a `From`: the place needs the text as well.
fn at_place(text: &[u8], fault: ReadFault) -> TextFault
    ensures { told result ≡ placed text.now fault }
{
    match fault {
        ReadFault::Form(left) => TextFault::Form(place_of(text, left)),
        ReadFault::Range(left) => TextFault::Range(place_of(text, left)),
        ReadFault::Many(left) => TextFault::Many(place_of(text, left)),
    }
}

/// Reads a text.
fn script(text: &[u8]) -> Result<Script, TextFault>
    ensures { script_in result ≡ script_of text.now (answer_of (script_at text.now)) }
{
    read(text).map_err(|fault| at_place(text, fault))
}

/// Answers the asks of a script over a model, on the scale with so many levels.
fn on_scale<M: Model>(model: &M, levels: u8, body: &Body) -> Result<ArrayVec<Answer, 8>, TextFault>
    ensures { listed result ≡ ask_all (M.meaning model.now) (grades_of levels) (said_in body.now) }
{
    // One `if` between two scales, each a type of its own.
    if levels == 1 {
        run(model, &Boolean, body)
    } else {
        run(model, &FiveValued, body)
    }
}

/// Answers the asks of a script.
fn ask(said: &Script) -> Result<ArrayVec<Answer, 8>, TextFault>
    ensures { listed result ≡ answers_of (told_in said.now) }
{
    match said.source {
        Source::Table(states, props) => {
            let table = said.body.table(states, props);
            on_scale(&table, said.levels, &said.body)
        }
        Source::Pool(buffers, guard) => {
            on_scale(&Pool { buffers, guard }, said.levels, &said.body)
        }
    }
}

/// The answers to a text's asks.
pub fn answers(text: &[u8]) -> Result<Answers, TextFault>
    ensures { given_in result ≡ answers_to text.now }
{
    if text.len() > 16384 {
        return Err(TextFault::Long);
    }
    let said = script(text)?;
    let list = ask(&said)?;
    Ok(Answers {
        levels: said.levels,
        list,
    })
}
