//! Reports worked by hand, and what holds of counters after some lines.
ghost use Rattle.report_text.specs.CounterRows.{FoldsCells};
ghost use Rattle.report_text.specs.CounterTotals.{HoldTotal};
ghost use Rattle.report_text.specs.ReportRows.{NothingAsked, TwoAreasWithGuards, TwoSpansWait, BlocksAndParts, TwoGroups, HintsAudited, CountersAudited, ObjectsRefused, CallsRefused, DeepSum, SpareChunk, EveryKindOfLine};

/// Whole reports.
pub fn reports()
    ensures nothing_asked { NothingAsked }
    ensures two_areas_with_guards { TwoAreasWithGuards }
    ensures two_spans_wait { TwoSpansWait }
    ensures blocks_and_parts { BlocksAndParts }
    ensures two_groups { TwoGroups }
    ensures hints_audited { HintsAudited }
    ensures counters_audited { CountersAudited }
    ensures objects_refused { ObjectsRefused }
    ensures calls_refused { CallsRefused }
    ensures deep_sum { DeepSum }
    ensures spare_chunk { SpareChunk }
    ensures every_kind_of_line { EveryKindOfLine }
{}

/// Counters after some lines.
pub fn counters()
    ensures cells { FoldsCells }
    ensures hold_total { HoldTotal }
{}
