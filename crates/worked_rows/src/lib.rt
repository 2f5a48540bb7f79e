//! Worked traces: what each leaves, by computation.
//!
//! - `area_rows`, `block_rows`, `object_rows`, `chunk_rows`: worked traces with all their tables.
#![tactic(auto)]

ghost use Rattle.worked_rows.specs.WorkedAreas.{EmptyTrace, TwoAreasWithGuards, NoSpaceAfterAPurge, FreedPagesWait, APurgeMakesRoom, AlignedAboveAPage, TheFirstFreeWins, TheOtherFreeWins, StaysAtTheTurn, LazyLimitPurges, RefusedCalls, PicksInTurn, AlignedToTheWholeRange, TwoFreeRuns, TwoWithoutSpace};
ghost use Rattle.worked_rows.specs.WorkedBlocks.{ASpentBlockWaits, AFragmentedBlockIsRetired, ALargeMapIsAnArea, NoFramesSpendsABlock, DirtyRangesAreFlushed};
ghost use Rattle.worked_rows.specs.WorkedObjects.{TwoGroups, OffsetsInAChunk, ObjectsOfAWholeUnit, NoFramesForAChunk, NoSpaceForAChunk, UnitsThatShareAnAllocation, ASumBelowThirtyTwoBits, WordsOfAnObject};
ghost use Rattle.worked_rows.specs.WorkedChunks.{HintsOverAHole, TheHoleIsTaken, AlignedFits, ABalanceWithoutFrames, AtomicAndBalance, ASecondChunk, SpareChunksArePurged, SpareChunksGo};

/// What the worked traces of areas leave.
pub fn area_rows()
    ensures empty_trace { EmptyTrace }
    ensures two_areas_with_guards { TwoAreasWithGuards }
    ensures no_space_after_a_purge { NoSpaceAfterAPurge }
    ensures freed_pages_wait { FreedPagesWait }
    ensures a_purge_makes_room { APurgeMakesRoom }
    ensures aligned_above_a_page { AlignedAboveAPage }
    ensures the_first_free_wins { TheFirstFreeWins }
    ensures the_other_free_wins { TheOtherFreeWins }
    ensures stays_at_the_turn { StaysAtTheTurn }
    ensures lazy_limit_purges { LazyLimitPurges }
    ensures refused_calls { RefusedCalls }
    ensures picks_in_turn { PicksInTurn }
    ensures aligned_to_the_whole_range { AlignedToTheWholeRange }
    ensures two_free_runs { TwoFreeRuns }
    ensures two_without_space { TwoWithoutSpace }
{}

/// What the worked traces of blocks leave.
pub fn block_rows()
    ensures a_spent_block_waits { ASpentBlockWaits }
    ensures a_fragmented_block_is_retired { AFragmentedBlockIsRetired }
    ensures a_large_map_is_an_area { ALargeMapIsAnArea }
    ensures no_frames_spends_a_block { NoFramesSpendsABlock }
    ensures dirty_ranges_are_flushed { DirtyRangesAreFlushed }
{}

/// What the worked traces of objects leave.
pub fn object_rows()
    ensures two_groups { TwoGroups }
    ensures offsets_in_a_chunk { OffsetsInAChunk }
    ensures objects_of_a_whole_unit { ObjectsOfAWholeUnit }
    ensures no_frames_for_a_chunk { NoFramesForAChunk }
    ensures no_space_for_a_chunk { NoSpaceForAChunk }
    ensures units_that_share_an_allocation { UnitsThatShareAnAllocation }
    ensures a_sum_below_thirty_two_bits { ASumBelowThirtyTwoBits }
    ensures words_of_an_object { WordsOfAnObject }
{}

/// What the worked traces of chunks leave.
pub fn chunk_rows()
    ensures hints_over_a_hole { HintsOverAHole }
    ensures the_hole_is_taken { TheHoleIsTaken }
    ensures aligned_fits { AlignedFits }
    ensures a_balance_without_frames { ABalanceWithoutFrames }
    ensures atomic_and_balance { AtomicAndBalance }
    ensures a_second_chunk { ASecondChunk }
    ensures spare_chunks_are_purged { SpareChunksArePurged }
    ensures spare_chunks_go { SpareChunksGo }
{}
