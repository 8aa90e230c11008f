//! The degrees that a text asks for.
use arrayvec::ArrayVec;

/// The degree of an ask's formula at its state.
#[derive(Clone, Copy, PartialEq, Eq, Debug, Default)]
pub struct Answer {
    pub state: u16,
    pub degree: u8,
}

/// The answers to a text's asks, in their order, and the levels of the scale that they are on.
#[derive(Drop)]
pub struct Answers {
    pub levels: u8,
    pub list: ArrayVec<Answer, 8>,
}
