//! What a walk has to do to meet a level, or to break it, as three sets.
use crate::sets::StateSet;

pub mod choosing;

/// To keep to `b` or `c` until `a` is seen, and to have `c`, or to have seen `a`, again and again, or, where it is to
/// settle, from some position on.
#[derive(Clone, Copy)]
pub struct Task {
    pub a: StateSet,
    pub b: StateSet,
    pub c: StateSet,
    pub settles: bool,
}
