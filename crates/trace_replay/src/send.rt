//! Writing a text to its end.
ghost use Rattle.std.specs.Prelude.{◌≡◌, ◌≤◌, ℕ, List, ◌++◌, Some, OnOk, OnErr, length, take};
ghost use Rattle.std.specs.Option.{ForSome};
ghost use Rattle.trace_replay.specs.Streams.{RoseByOne};

use crate::sink::Sink;
use crate::source::Failed;

/// Writes a text, piece by piece, until all of it is taken or a write fails.
pub fn send<K: Sink>(sink: &mut K, text: &[u8]) -> Result<(), Failed>
    requires { ForSome (K.room sink.old) (λ room. length text.now ≤ room) }
    ensures taken { OnOk result ((before : List ℕ) → K.taken sink.old ≡ Some before
        → K.taken sink.new ≡ Some (before ++ text.now)) }
    ensures prefix { OnErr result ((before : List ℕ) → K.taken sink.old ≡ Some before
        → (n : ℕ) × (K.taken sink.new ≡ Some (before ++ take n text.now))) }
    ensures failed { OnErr result (RoseByOne (K.faults sink.old) (K.faults sink.new)) }
    ensures no_fault { OnOk result (K.faults sink.new ≡ K.faults sink.old) }
{
    let mut rest = text;
    while !rest.is_empty() {
        let count = sink.write(rest)?;
        (_, rest) = rest.split_at(count);
    }
    Ok(())
}
