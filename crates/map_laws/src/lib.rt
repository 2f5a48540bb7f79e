//! Laws of the plain map: what holds after each event of every legal history.
//!
//! - `turns`: each turn is with the one caller whose place has it, and the purge turn is taken last.
//! - `ends`: from each reached world every caller ends, in fewer events than the definition of a history allows for,
//!   and more of these change nothing.
//! - `every_trace`: areas are disjoint and start where their kind and their call want it, the guard is never mapped,
//!   free pages are clean, pages wait before reuse (`waits`; `waited` says that what is returned did wait), the parts
//!   of a block are disjoint, live objects are mapped in every unit and share no byte, a sum is what was added, what
//!   callers carry between two sections is kept, and the history of a trace is one legal history in which every
//!   caller ends.
#![tactic(auto)]

ghost use Rattle.vm_model.specs.Laws.{ThePurgeTurnIsTakenLast, MoreFuelChangesNothing, AreasAreDisjointAndAligned, TheGuardIsNeverMapped, FreePagesAreClean, PagesWaitBeforeReuse, PartsOfABlockAreDisjoint, ObjectsAreMappedInEveryUnit, SumsAreTheAdds, WhatIsCarriedIsKept, HistoriesAreLegal};
ghost use Rattle.map_laws.specs.TwoTurns.{TheTurnsAreKept};
ghost use Rattle.map_laws.specs.EveryRunEnds.{EveryRunEnds, HistoriesAreShort};
ghost use Rattle.map_laws.specs.WorldSteps.{StepsAreReached};
ghost use Rattle.map_laws.specs.WaitingPages.{FreedPagesHaveWaited};

/// Each of the two turns is with the one caller whose place has it, and the purge turn is taken last.
pub fn turns()
    ensures kept { TheTurnsAreKept }
    ensures purge_last { ThePurgeTurnIsTakenLast }
{}

/// Every run ends: each reached world leads to one in which every caller has ended, in fewer events than a history may
/// have.
pub fn ends()
    ensures every_run_ends { EveryRunEnds }
    ensures short { HistoriesAreShort }
    ensures more_fuel { MoreFuelChangesNothing }
{}

/// In every trace areas are disjoint and start where their kind and their call want it, a guard is never mapped, free pages
/// are clean and a frame is one page's, pages wait before they are used again, the parts of a block are disjoint, a live
/// object is mapped in every unit and shares no byte with another, and a sum is what was added. What callers carry between
/// two sections is kept, the history is one legal history in which every caller ends, and each step leads from a world of
/// legal histories to another.
pub fn every_trace()
    ensures apart { AreasAreDisjointAndAligned }
    ensures guard { TheGuardIsNeverMapped }
    ensures clean { FreePagesAreClean }
    ensures waits { PagesWaitBeforeReuse }
    ensures waited { FreedPagesHaveWaited }
    ensures parts { PartsOfABlockAreDisjoint }
    ensures objects { ObjectsAreMappedInEveryUnit }
    ensures sums { SumsAreTheAdds }
    ensures carried { WhatIsCarriedIsKept }
    ensures legal { HistoriesAreLegal }
    ensures steps { StepsAreReached }
{}
