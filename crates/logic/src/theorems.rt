//! The theorems: each function proves its statement and does nothing.
ghost use Rattle.logic.specs.Theorems.{FixedPointsFound, SetsAreWalks, BrokenBySomeWalk, ReachesWhereSat, LevelsShrink, RowDegreeIsValue, ValueUnique, DegreeIsTruth, TruthUnique};
ghost use Rattle.logic.specs.Searches.{SearchFinds, SearchMisses};

/// What the definitions call least and greatest fixed points are these, of every operator that is used.
pub fn fixed_points_found()
    ensures { FixedPointsFound }
{}

/// The set of a path row has a state exactly where some walk from it meets the level (E), or none breaks it (A).
#[tactic(auto, using(crate::proofs::Levels::sets_are_walks))]
pub fn sets_are_walks()
    ensures { SetsAreWalks }
{}

/// Where the set of an A row lacks a state there is a walk from it that breaks the level.
#[tactic(auto, using(crate::proofs::Levels::broken_by_some_walk))]
pub fn broken_by_some_walk()
    ensures { BrokenBySomeWalk }
{}

/// A higher level's set is no larger.
#[tactic(auto, using(crate::proofs::Levels::levels_shrink))]
pub fn levels_shrink()
    ensures { LevelsShrink }
{}

/// A row reaches a level at a state exactly where the set of that level has the state.
#[tactic(auto, using(crate::proofs::Rows::reaches_where_sat))]
pub fn reaches_where_sat()
    ensures { ReachesWhereSat }
{}

/// The degree of a row by the sets is its truth value by the walks.
#[tactic(auto, using(crate::proofs::Rows::row_degree_is_value))]
pub fn row_degree_is_value()
    ensures { RowDegreeIsValue }
{}

/// A row has one truth value.
#[tactic(auto, using(crate::proofs::Rows::value_unique))]
pub fn value_unique()
    ensures { ValueUnique }
{}

/// The degree of a formula by the sets is its truth value by the walks.
#[tactic(auto, using(crate::proofs::Values::degree_is_truth))]
pub fn degree_is_truth()
    ensures { DegreeIsTruth }
{}

/// A formula has one truth value at each state.
pub fn truth_unique()
    ensures { TruthUnique }
{}

/// A walk that a search's rounds guide meets or breaks the level, as the row asks.
#[tactic(auto, using(crate::proofs::Seeking::search_finds))]
pub fn search_finds()
    ensures { SearchFinds }
{}

/// Where a search finds nothing, no walk does.
#[tactic(auto, using(crate::proofs::Seeking::search_misses))]
pub fn search_misses()
    ensures { SearchMisses }
{}
