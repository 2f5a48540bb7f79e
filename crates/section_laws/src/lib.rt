//! What a section may ask of the region that its caller wants, in one state of a run; and that sections keep such a state.
//!
//! - `sections`: a caller and a region that stand in one state of a run (`IsLawful`) have what the caller's section
//!   needs: the pages that get or lose frames stand once each, in the space, and are bare or mapped; an object's
//!   words can be reached in every unit; what is settled or waits shares no page with what is there; there is room
//!   for an object, numbers are left, and no word is more than all adds of a trace come to. It is said for the
//!   sections of per-CPU objects, over the words of the model alone.
//! - `turns`: a section that moves leaves a lawful state lawful, and its caller's reach is the number of regions;
//!   callers that move in turn are picks of the world.
#![tactic(auto)]

ghost use Rattle.section_laws.specs.MovesInTurn.{SectionsKeepLawful, ReachIsTheRegions, SectionsKeepReach, TurnsArePicks};

/// A section that moves leaves a lawful state lawful, and its caller's reach as it was, which is the number of regions.
/// Callers that move in turn are picks of the world.
pub fn turns()
    ensures keep_lawful { SectionsKeepLawful }
    ensures reach { ReachIsTheRegions }
    ensures same_reach { SectionsKeepReach }
    ensures picks { TurnsArePicks }
{}

ghost use Rattle.section_laws.specs.WordBounds.{CellsAreSmall, AmountsAreSmall};
ghost use Rattle.section_laws.specs.ReadyRegions.{PagesAreReady, AreasAreReady, WaitsAreReady, PercpuIsReady, NumbersAreLeft, ChunksHaveUnits};

/// What stands in one state of a run with a caller, the page map, the live areas, the waiting spans or the chunks, has what
/// the caller's section asks for.
pub fn sections()
    ensures pages { PagesAreReady }
    ensures areas { AreasAreReady }
    ensures waits { WaitsAreReady }
    ensures percpu { PercpuIsReady }
    ensures numbers { NumbersAreLeft }
    ensures units { ChunksHaveUnits }
    ensures cells { CellsAreSmall }
    ensures amounts { AmountsAreSmall }
{}
