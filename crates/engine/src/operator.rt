//! The temporal operators.

/// What a path row asks of a walk.
#[derive(Clone, Copy, PartialEq, Eq, Debug)]
pub enum Operator {
    Next,
    Finally,
    Globally,
    Until,
    Weak,
}
