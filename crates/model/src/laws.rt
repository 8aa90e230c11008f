//! What the definitions say between them: each function proves its statement and does nothing.
ghost use Rattle.model.specs.Laws.{OneLeast, ToldApart};

/// The answer to the question for the least step is determined.
pub fn one_least()
    ensures { OneLeast }
{}

/// Number and value tell a model's faults apart.
pub fn told_apart()
    ensures { ToldApart }
{}
