//! The sheet.
ghost use Rattle.std.specs.Prelude.{◌≤◌};

pub mod calls;
pub mod checks;
mod lent;
pub mod walking;
pub mod working;

use model::interface::Size;

/// A sheet over a model of 1 to 4,096 states and up to 64 propositions and a scale of 1 to 4 levels, with up to 128 rows.
#[derive(Drop)]
pub struct Sheet {
    size: Size,
    levels: u8,
    rows: u8,
    ghost some_states: { 1 ≤ size.states },
    ghost few_states: { size.states ≤ 4096 },
    ghost few_props: { size.props ≤ 64 },
    ghost some_levels: { 1 ≤ levels },
    ghost few_levels: { levels ≤ 4 },
    ghost few_rows: { rows ≤ 128 },
}
