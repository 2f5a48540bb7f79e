//! Regions, callers, and the section that a caller makes over a region.
ghost use Rattle.std.specs.Prelude.{◌≡◌, ◌≤◌, ◌<◌, MatchResult, IfSome};
ghost use Rattle.vm_model.specs.Run.{StandTogether};
ghost use Rattle.map_parts.specs.SectionRuns.{KeepsLawful};
ghost use Rattle.section_table.specs.Meanings.{Meanings};
ghost use Rattle.section_table.specs.Turn.{Answers};

use std::alloc::AllocError;

/// What a section did.
#[derive(Drop)]
pub enum Turned {
    Moved,
    Stays,
}

/// Regions, callers, and the section that a caller makes over a region.
pub trait Parts {
    type Region: Drop;

    /// What is kept of a caller.
    type Local: Drop;

    /// What sections do, as plain data.
    ghost meaning: { Meanings Self.Region Self.Local };

    /// The region that a caller wants next, or none where it has ended.
    fn wants(local: &Self::Local) -> Option<u16>
        ensures answer { result ≡ meaning.wanted local.now }
        ensures below { IfSome result (λ k. k < meaning.reach local.now) };

    /// Makes the caller's next event over the region that it wants. Room is taken before anything changes.
    fn section(local: &mut Self::Local, region: &mut Self::Region) -> Result<Turned, AllocError>
        requires { StandTogether meaning.wanted meaning.lawful local.old region.old }
        ensures answer { MatchResult result
            (Answers meaning local.old region.old local.new region.new) (λ _.
            (local.new ≡ local.old) × (region.new ≡ region.old)) }
        ensures reach { meaning.reach local.new ≤ meaning.reach local.old };

    /// A section keeps a state lawful.
    ghost keeps: { KeepsLawful meaning.wanted meaning.moves meaning.after meaning.lawful };
}
