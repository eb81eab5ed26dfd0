//! What it means that it is said where something is.
ghost use Rattle.hurd_places.specs.Differ.{NodePlacesDiffer, OpenPlacesDiffer, PathsDiffer, PlacesDiffer, PlacesFit, ServerPathsDiffer};

/// A law: where something is may stand in a part of a sentence.
pub fn places_fit()
    ensures { PlacesFit }
{}

/// A law: two things that some tasks see are at two places, and two nodes have two paths.
pub fn places_differ()
    ensures paths { PathsDiffer }
    ensures nodes { NodePlacesDiffer }
    ensures opens { OpenPlacesDiffer }
    ensures servers { ServerPathsDiffer }
    ensures all { PlacesDiffer }
{}
