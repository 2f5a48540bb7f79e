//! Laws of calls: what each caller makes in every legal history.
//!
//! - `histories`: the opening's events come first; each caller's answers are those of the first calls of its list, in
//!   order, its own events are the shapes of these calls one after another, and what a call names by its target is
//!   what the target's own call settled.
//! - `replies`: each event is legal in the map that the events before it leave, a reply without an address comes
//!   exactly where its cause is, in the map as it was then, and the number told with a reply is that of its call's
//!   last event.
//! - `room`: the room for objects is the number of placing calls less the objects placed, and at least 1 wherever a
//!   caller may place one next.
//! - `chunks`: all areas of a chunk stand at its base plus their group's offset, and no page of it beyond the units
//!   of the processors is mapped.
//! - `guards`: the guard of a vmalloc span is bare from its carve until it is free again.
//! - `adds`: an add changes one word of all words of all objects, also of those that callers have in hand.
//! - `all_laws`: all of these but the outer units and the last, and the laws of `map_laws`, as one record for one world
//!   (`KeepsTheLaws`).
#![tactic(auto)]

ghost use Rattle.call_laws.specs.Histories.{HistoriesHaveTheShapesOfCalls};
ghost use Rattle.call_laws.specs.Opening.{TheOpeningComesFirst};
ghost use Rattle.call_laws.specs.Causes.{EachEventIsLegal, RepliesHaveTheirCauses};
ghost use Rattle.call_laws.specs.Room.{RoomCountsPlacingCalls};
ghost use Rattle.call_laws.specs.ExactReplies.{CausesBringReplies};
ghost use Rattle.call_laws.specs.CallTargets.{TargetsAreWhatTheirCallsGot};
ghost use Rattle.call_laws.specs.ReplyNumbers.{ReportsTellLastEvents};
ghost use Rattle.call_laws.specs.Adds.{AddsChangeOneWord};
ghost use Rattle.call_laws.specs.Guards.{GuardsStayBare};
ghost use Rattle.call_laws.specs.ChunkAreas.{ChunksHaveOneBase, UnitsBeyondProcessorsAreUnmapped};
ghost use Rattle.call_laws.specs.WorldLaws.{ReachedWorldsKeepTheLaws};

/// The opening's events come first. Each caller's answers are those of the first calls of its list, in order, and its own
/// events have the shapes of these calls. What a call names by its target is what the target's call settled.
pub fn histories()
    ensures opening_first { TheOpeningComesFirst }
    ensures shapes { HistoriesHaveTheShapesOfCalls }
    ensures targets { TargetsAreWhatTheirCallsGot }
{}

/// Each event is legal in the map that the events before it leave, and each reply without an address has its cause there, and comes
/// wherever its cause is. The number that is told with a reply is that of its call's last event.
pub fn replies()
    ensures legal { EachEventIsLegal }
    ensures causes { RepliesHaveTheirCauses }
    ensures exactly { CausesBringReplies }
    ensures numbers { ReportsTellLastEvents }
{}

/// The room for objects is the number of placing calls less the objects placed, and never wanting.
pub fn room()
    ensures counted { RoomCountsPlacingCalls }
{}

/// All areas of a chunk stand at its base plus their group's offset, and no page of it beyond the units of the processors
/// is mapped.
pub fn chunks()
    ensures one_base { ChunksHaveOneBase }
    ensures outer_units { UnitsBeyondProcessorsAreUnmapped }
{}

/// The guard of a vmalloc span is unmapped and not stale from its carve until it is free again: also while the area is being
/// settled or unmapped, while it waits, and while a purge flushes it.
pub fn guards()
    ensures bare { GuardsStayBare }
{}

/// An add changes one word of all words of all objects, also of those that callers have in hand.
pub fn adds()
    ensures one_word { AddsChangeOneWord }
{}

/// Every world that a legal history of a trace leads to keeps all laws, those of its calls and those of its map.
pub fn all_laws()
    ensures kept { ReachedWorldsKeepTheLaws }
{}
