//! Worked layouts, by computation.
ghost use Rattle.unit_layout.specs.WorkedLayouts.{OneProcessor, SixShareTwoAllocations, FiveShareThreeAllocations, TwoGroups, NoProcessor, NineGroups, SharedPages, TheFirstPair, AboveTheSpace, NoProcessorOfNine, NoProcessorAndSharedPages, NineGroupsShare, NineGroupsAboveTheSpace, SharedAboveTheSpace, FirstOfFour};

/// The numbers of worked layouts, and why others are refused.
pub fn layout_rows()
    ensures one_processor { OneProcessor }
    ensures six_share_two_allocations { SixShareTwoAllocations }
    ensures five_share_three_allocations { FiveShareThreeAllocations }
    ensures two_groups { TwoGroups }
    ensures no_processor { NoProcessor }
    ensures nine_groups { NineGroups }
    ensures shared_pages { SharedPages }
    ensures the_first_pair { TheFirstPair }
    ensures above_the_space { AboveTheSpace }
    ensures no_processor_of_nine { NoProcessorOfNine }
    ensures no_processor_and_shared_pages { NoProcessorAndSharedPages }
    ensures nine_groups_share { NineGroupsShare }
    ensures nine_groups_above_the_space { NineGroupsAboveTheSpace }
    ensures shared_above_the_space { SharedAboveTheSpace }
    ensures first_of_four { FirstOfFour }
{}
