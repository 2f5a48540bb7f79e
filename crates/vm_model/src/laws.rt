//! What holds of the definitions: of free runs, fits and hints, and of every map and call.
ghost use Rattle.vm_model.specs.Hints.{TheLongestRunIsLongest, TheLongestRunIsTheOnlyOne, TheHintIsTheOnlyOne, TheSlotGoesByTheRun};
ghost use Rattle.vm_model.specs.LegalHistory.{AtMostOneComesNext, GivesWhereItMoves};
ghost use Rattle.vm_model.specs.ObjectShapes.{CallsHaveShapes};
ghost use Rattle.vm_model.specs.Space.{TheLowestFits, FreeRunsAreTheOnlyOnes};

/// The maximal free runs of a space are the only spans in order, none empty and no two touching, that cover its free
/// pages.
pub fn free_runs()
    ensures { FreeRunsAreTheOnlyOnes }
{}

/// The lowest fit is the first number that fits.
pub fn lowest_fits()
    ensures { TheLowestFits }
{}

/// The longest run is the leftmost of the longest free spans, a hint is what a reader counts at the bits, and a slot
/// goes by the longest run alone.
pub fn hints()
    ensures longest { TheLongestRunIsLongest }
    ensures only_run { TheLongestRunIsTheOnlyOne }
    ensures only_hint { TheHintIsTheOnlyOne }
    ensures slot { TheSlotGoesByTheRun }
{}

/// A caller's next event is determined by the map.
pub fn one_event_next()
    ensures at_most_one { AtMostOneComesNext }
    ensures where_it_moves { GivesWhereItMoves }
{}

/// What a caller makes for a call, from its beginning to its answer, has the shape of that call.
pub fn shapes()
    ensures { CallsHaveShapes }
{}
