//! Laws of the map in parts: a lock section reads and changes one region, and so sections over single regions give
//! what the events over the whole map give.
//!
//! - `locality`, `kept`: in every world that a legal history leads to, a section reads and changes the region that it
//!   asks for, and no other.
//! - `runs_are_parts_of_the_map`: sections over single regions give the parts of the map that the events over the
//!   whole map give.
//! - `sections`, `lawful_sections`: the same fold over any regions and places, for whoever keeps a fact through all
//!   sections.
#![tactic(auto)]

ghost use Rattle.std.specs.Prelude.{ℕ, Bool, Option, List};
ghost use Rattle.map_parts.specs.SectionRuns.{SectionsRun, KeepsLawful, StaysLawful, FindsTogether};

/// Sections over regions and locals, whatever both are.
pub fn sections<R, L>()
    ensures { SectionsRun R L }
{}

/// Sections over regions and locals, and a fact about all of these that each section keeps.
pub trait LawfulSections {
    type Region;

    type Local;

    ghost wanted: { Self.Local → Option ℕ };

    ghost moves: { Self.Local → Self.Region → Bool };

    ghost after: { Self.Local → Self.Region → Self.Local × Self.Region };

    ghost lawful: { List Self.Region → List Self.Local → Type 0 };

    ghost keeps: { KeepsLawful wanted moves after lawful };
}

/// A fact that each section keeps holds after all sections, and where a local meets the region that it wants.
pub fn lawful_sections<S: LawfulSections>()
    ensures stays { StaysLawful S.wanted S.moves S.after S.lawful }
    ensures together { FindsTogether S.wanted S.moves S.after S.lawful }
{}

ghost use Rattle.map_parts.specs.Locality.{SectionsAreOverOneRegion};

/// A section reads and changes the region that its ask names, and no other.
pub fn locality()
    ensures { SectionsAreOverOneRegion }
{}

ghost use Rattle.map_parts.specs.KeptByEvents.{ReachedWorldsKeepApart, StepsKeepApart, KeptWorldsFallApart, KeptCallersStayWithin};

/// What every reached world has and every step keeps, so that the map falls apart into its regions and each caller's
/// next section stays within one.
pub fn kept()
    ensures reached { ReachedWorldsKeepApart }
    ensures steps { StepsKeepApart }
    ensures falls_apart { KeptWorldsFallApart }
    ensures stay_within { KeptCallersStayWithin }
{}

ghost use Rattle.vm_model.specs.Parts.{RunsArePartsOfTheMap};

/// From a reached world, sections over single regions give the parts of the map that the events over the whole map
/// give, for any callers in turn.
pub fn runs_are_parts_of_the_map()
    ensures { RunsArePartsOfTheMap }
{}
