//! How `enter` works out a row.
ghost use Rattle.std.specs.Prelude.{◌≡◌, ◌≢◌, ℕ, ◌+◌, ◌*◌, ◌<◌, ◌≤◌, ◌==◌, List, length, None, is_some, if◌then◌else◌, slice_index};
ghost use Rattle.std.specs.Option.{ForSome};
ghost use Rattle.engine.specs.Marks.{members};
ghost use Rattle.engine.specs.Satisfied.{asked, quantifier};
ghost use Rattle.logic.specs.Kinds.{reach};
ghost use Rattle.logic.specs.Kinds.Kind.{path};
ghost use Rattle.sheet.specs.Calls.{given, first_of, second_of, reaches, degrees_of, written};
ghost use Rattle.sheet.specs.Kinds.{number_of, operands_of, meant, path_of};
ghost use Rattle.sheet.specs.Over.{state_of, row_of, row_over, Fits};
ghost use Rattle.sheet.specs.States.{seen};
ghost use Rattle.sheet.specs.declared.row.Row.{Row as Record};

use super::Sheet;
use crate::kinds::Kind;
use crate::sheet::lent::{Known, Lent};
use engine::operands::Operands;
use engine::operator::Operator;
use engine::per_state::PerState;
use engine::satisfy::satisfy;
use engine::sets::StateSet;
use model::interface::Model;
use scale::scales::Scale;

/// A degree for each state.
type Degrees = PerState<u8>;

/// Raises the degree to the level where the set has the state.
fn raise(n: u16, set: &StateSet, level: u8, degrees: &mut Degrees)
    requires { n ≤ 4096 }
    ensures { (s : ℕ) → s < n → slice_index degrees.new.at s ≡ (if members set.now s then level else slice_index degrees.old.at s) }
{
    for s in 0..n {
        if set.has(s) {
            degrees.at[usize::from(s)] = level;
        }
    }
}

/// Writes the degrees of `n` states from place `start` on.
fn write(bytes: &mut [u8], start: usize, n: u16, degrees: &Degrees)
    requires { (n ≤ 4096) × (start + n ≤ length bytes.old) }
    ensures { bytes.new ≡ written bytes.old start n (λ s. slice_index degrees.now.at s) }
{
    let n = usize::from(n);
    bytes[start..start + n].copy_from_slice(&degrees.at[..n]);
}

impl Sheet {
    // A function clears its arrays when it starts. So `enter` holds none, and a refused row pays for none. The row is no
    // `Known` here: that would lend the bytes, which are written.
    /// Works out a row, and writes its degrees behind those of the sheet's rows.
    pub(crate) fn append<M: Model, S: Scale>(
        &self,
        model: &M,
        scale: &S,
        bytes: &mut [u8],
        kind: Kind,
        a: u8,
        b: Option<u8>,
    )
        requires sizes { Fits (M.meaning model.now) (S.grades scale.now) self.now }
        requires room { (self.now.rows + 1) * self.now.size.states ≤ length bytes.old }
        requires operands { ((number_of kind ≢ 1) → a < self.now.rows) × (is_some b ≡ (operands_of (number_of kind) == 2)) × ForSome b (λ b. b < self.now.rows) }
        ensures { (rs : List Record) → bytes.new ≡ written bytes.old (self.now.rows * self.now.size.states) self.now.size.states (degrees_of (M.meaning model.now) (S.grades scale.now) (seen self.now rs bytes.old) (row_over kind a b)) }
    {
        let lent = Lent { sheet: self, bytes };
        let mut degrees = Degrees { at: [0; 4096] };
        Known { lent, kind, a, b }.work_out(model, scale, &mut degrees);
        write(bytes, self.used(), self.size.states, &degrees);
    }
}

impl Lent<'_> {
    // Row, state and level are numbers in the user's calls, so each of these asks that they are there: a type for each would be
    // made and taken apart at once.
    /// The byte of a row at a state.
    pub(crate) fn byte(&self, row: u8, s: u16) -> u8
        requires { (row < self.now.sheet.now.rows) × (s < self.now.sheet.now.size.states) }
        ensures { result ≡ slice_index self.now.bytes.now (row * self.now.sheet.now.size.states + s) }
    {
        self.bytes[usize::from(row) * usize::from(self.sheet.size.states) + usize::from(s)]
    }

    /// The states at which a row reaches a level.
    pub(crate) fn reaching(&self, row: u8, level: u8) -> StateSet
        requires { (row < self.now.sheet.now.rows) × (1 ≤ level) }
        ensures { (rs : List Record) (s : ℕ) → members result s ≡ reach (given (state_of self.now rs) row) level s }
    {
        let states = self.sheet.size.states;
        StateSet::by(states, false, |s| self.byte(row, s) >= level)
    }
}

// Model, scale, level and state go one by one, and each function asks that they are there and of the sheet's size: they
// are what the users' calls are given, and come anew with each.
impl Known<'_> {
    // As in `second_at`, a `match`: one gives a set, the other a degree, and with `map_or` the proof did not close.
    /// The states at which the row's second operand reaches a level, none if it has no second operand.
    pub(crate) fn second_reaching(&self, level: u8) -> StateSet
        requires { 1 ≤ level }
        ensures { (rs : List Record) (s : ℕ) → members result s ≡ reach (second_of (state_of self.now.lent rs) (row_of self.now)) level s }
    {
        match self.b {
            Some(b) => self.lent.reaching(b, level),
            None => StateSet::of(false),
        }
    }

    // The sets are made here and not in a function for each level, which would clear its own each time it starts.
    /// Raises the degrees of a row that asks for walks from 0, level by level.
    fn by_levels<M: Model, S: Scale>(
        &self,
        model: &M,
        scale: &S,
        some: bool,
        operator: Operator,
        degrees: &mut Degrees,
    )
        requires sizes { Fits (M.meaning model.now) (S.grades scale.now) self.now.lent.sheet.now }
        requires path { meant self.now.kind self.now.a ≡ path (quantifier some) (asked operator) }
        requires zero { (s : ℕ) → s < self.now.lent.sheet.now.size.states → slice_index degrees.old.at s ≡ 0 }
        ensures { (rs : List Record) (s : ℕ) → s < self.now.lent.sheet.now.size.states → slice_index degrees.new.at s ≡ degrees_of (M.meaning model.now) (S.grades scale.now) (state_of self.now.lent rs) (row_of self.now) s }
    {
        for level in 1..=self.lent.sheet.levels {
            let left = self.lent.reaching(self.a, level);
            let right = self.second_reaching(level);
            let operands = Operands {
                left: &left,
                right: &right,
            };
            let reading = scale.reading(level).unwrap();
            let set = satisfy(model, some, operator, reading, operands);
            raise(self.lent.sheet.size.states, &set, level, degrees);
        }
    }

    /// The degree of the row's first operand at a state, where it has one.
    fn first_at(&self, s: u16) -> u8
        requires { (s < self.now.lent.sheet.now.size.states) × (number_of self.now.kind ≢ 1) }
        ensures { (rs : List Record) → first_of (state_of self.now.lent rs) (row_of self.now) s ≡ result }
    {
        self.lent.byte(self.a, s)
    }

    /// The degree of the row's second operand at a state, 0 if it has none.
    fn second_at(&self, s: u16) -> u8
        requires { s < self.now.lent.sheet.now.size.states }
        ensures { (rs : List Record) → second_of (state_of self.now.lent rs) (row_of self.now) s ≡ result }
    {
        match self.b {
            Some(b) => self.lent.byte(b, s),
            None => 0,
        }
    }

    /// The degree that a rule gives from the operands' degrees at a state.
    fn by_operands<R: Fn(u8, u8) -> u8>(&self, s: u16, rule: R) -> u8
        requires { (s < self.now.lent.sheet.now.size.states) × (number_of self.now.kind ≢ 1) × R.IsAlwaysCallable rule }
        ensures { (rs : List Record) → R.post rule (first_of (state_of self.now.lent rs) (row_of self.now) s) (second_of (state_of self.now.lent rs) (row_of self.now) s) result }
    {
        rule(self.first_at(s), self.second_at(s))
    }

    /// The degree at a state of a row that asks for no walk.
    fn degree_at<M: Model, S: Scale>(&self, model: &M, scale: &S, s: u16) -> u8
        requires { (s < self.now.lent.sheet.now.size.states) × (path_of self.now.kind ≡ None) }
        ensures { (rs : List Record) → result ≡ degrees_of (M.meaning model.now) (S.grades scale.now) (state_of self.now.lent rs) (row_of self.now) s }
    {
        let top = scale.levels();
        match self.kind {
            Kind::Prop => if model.holds(self.a, s) { top } else { 0 },
            Kind::Or => self.by_operands(s, |a, b| a.max(b)),
            Kind::And => self.by_operands(s, |a, b| a.min(b)),
            Kind::Not => self.by_operands(s, |a, _| if a >= top { 0 } else { top }),
            Kind::Imp => self.by_operands(s, |a, b| if a <= b { top } else { b }),
            Kind::E(_) | Kind::A(_) => unreachable!(),
        }
    }

    /// The degrees of a row that asks for no walk, state by state.
    fn by_states<M: Model, S: Scale>(&self, model: &M, scale: &S, degrees: &mut Degrees)
        requires { path_of self.now.kind ≡ None }
        ensures { (rs : List Record) (s : ℕ) → s < self.now.lent.sheet.now.size.states → slice_index degrees.new.at s ≡ degrees_of (M.meaning model.now) (S.grades scale.now) (state_of self.now.lent rs) (row_of self.now) s }
    {
        for s in 0..self.lent.sheet.size.states {
            degrees.at[usize::from(s)] = self.degree_at(model, scale, s);
        }
    }

    // In place, as what it calls: an array that is handed back is cleared in each function that it passes through.
    /// Works out the degrees of the row, which are 0 before.
    fn work_out<M: Model, S: Scale>(&self, model: &M, scale: &S, degrees: &mut Degrees)
        requires sizes { Fits (M.meaning model.now) (S.grades scale.now) self.now.lent.sheet.now }
        requires zero { (s : ℕ) → s < self.now.lent.sheet.now.size.states → slice_index degrees.old.at s ≡ 0 }
        ensures { (rs : List Record) (s : ℕ) → s < self.now.lent.sheet.now.size.states → slice_index degrees.new.at s ≡ degrees_of (M.meaning model.now) (S.grades scale.now) (state_of self.now.lent rs) (row_of self.now) s }
    {
        match self.kind.path() {
            Some((some, operator)) => self.by_levels(model, scale, some, operator, degrees),
            None => self.by_states(model, scale, degrees),
        }
    }
}
