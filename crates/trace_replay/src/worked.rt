//! Worked traces, from the bytes in to the bytes out.
ghost use Rattle.trace_replay.specs.WorkedReplays.{OneFreeSpace, OneFreeSpaceAudited, TwoAreasWithGuards, PlacesAsPicked, APickStays};

/// What the definitions say of the worked traces, by computation.
pub fn worked_replays()
    ensures one_free_space { OneFreeSpace }
    ensures one_free_space_audited { OneFreeSpaceAudited }
    ensures two_areas_with_guards { TwoAreasWithGuards }
    ensures places_as_picked { PlacesAsPicked }
    ensures a_pick_stays { APickStays }
{}
