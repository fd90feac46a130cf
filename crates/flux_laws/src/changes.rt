//! Laws of what a change of the graph does to the embeddings of a pattern.
ghost use Rattle.flux_laws.specs.ChangesLaws.{GainedAreNew, GainedAscend, InsertionAddsGained, InsertionLosesNone, LostAreOld, LostAscend, NoneGainedAndLost, RemovalGainsNone, RemovalTakesLost};

/// What is gained is exactly what is an embedding in the new graph and was none in the old one.
pub fn gained_are_new()
    ensures { GainedAreNew }
{}

/// What is lost is exactly what was an embedding in the old graph and is none in the new one.
pub fn lost_are_old()
    ensures { LostAreOld }
{}

/// Nothing is gained and lost at once.
pub fn none_gained_and_lost()
    ensures { NoneGainedAndLost }
{}

/// What is gained stands in strictly ascending order.
pub fn gained_ascend()
    ensures { GainedAscend }
{}

/// What is lost stands in strictly ascending order.
pub fn lost_ascend()
    ensures { LostAscend }
{}

/// An accepted insertion of a vertex or an edge loses no embedding.
pub fn insertion_loses_none()
    ensures { InsertionLosesNone }
{}

/// An accepted removal of a vertex or an edge gains no embedding.
pub fn removal_gains_none()
    ensures { RemovalGainsNone }
{}

/// After an accepted insertion the embeddings are the old ones and those that were gained.
pub fn insertion_adds_gained()
    ensures { InsertionAddsGained }
{}

/// Before an accepted removal the embeddings were those that are left and those that were lost.
pub fn removal_takes_lost()
    ensures { RemovalTakesLost }
{}
