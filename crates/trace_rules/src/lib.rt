//! The rules of the model, kept by every trace.
//!
//! - `traces`: for every text that is a trace and whose layout is not refused, its header's numbers are those of a
//!   machine, and each call of each of its sections may stand after those before it (`IsTrace`): a target names an
//!   earlier call of its section or a call of the opening, of the kind that its word asks for, an index lies in its
//!   object, and a processor is one of the header. The amounts that are added are signed numbers of 32 bits, each
//!   pick is a caller, and each count line is the opening's or a caller's and gives a small amount to a counter by a
//!   processor of the header (`IsRuledTrace`).
#![tactic(auto)]

ghost use Rattle.trace_rules.specs.RuledTraces.{TracesKeepTheRules};

/// A text that is a trace and whose layout is not refused keeps the rules of the model.
pub fn traces()
    ensures rules { TracesKeepTheRules }
{}
