//! The words of the commands.
ghost use Rattle.std.specs.Prelude.{◌≡◌, ◌≢◌, ◌≤◌, ℕ, [], ◌∷◌, IfSome, IfNone, MatchBool, codes, decimal, map, string_bytes};
ghost use Rattle.trace_replay.specs.declared.words.Mode.{Mode};
ghost use Rattle.trace_replay.specs.CommandWords.{Name, NameNone, word_of, audits};

use itoa::Buffer;

/// The greatest number from which a trace is generated.
const MOST_START: u32 = 2_147_483_647;

/// The most lines of calls and counts of a generated trace.
const MOST_CALLS: u32 = 100_000;

/// What a replay writes.
#[derive(Clone, Copy)]
pub enum Mode {
    /// The report.
    Replay,
    /// The report with its audit lines: numbers that are kept, each beside that of a plain scan.
    Audit,
}

impl Mode {
    /// Whether the report has its audit lines.
    pub fn audits(self) -> bool
        ensures { result ≡ audits self }
    {
        match self {
            Mode::Replay => false,
            Mode::Audit => true,
        }
    }
}

/// What the words of a command ask for.
#[derive(Clone, Copy)]
pub enum Command {
    /// A trace is read, and its report is written.
    Replay(Mode),
    /// A trace is read and its callers run on threads of their own; the order of their events is written, and its report.
    Live,
    /// The trace is written that these numbers generate: where its draws start, and its lines of calls and counts.
    Make { start: u32, calls: u32 },
}

/// The mode that a word names.
fn find_mode(word: &str) -> Option<Mode>
    ensures some { IfSome result (λ mode. word.now ≡ word_of mode) }
    ensures none { IfNone result ((mode : Mode) → word.now ≢ word_of mode) }
{
    match word {
        "replay" => Some(Mode::Replay),
        "audit" => Some(Mode::Audit),
        _ => None,
    }
}

/// Whether a word is that of a live run.
fn is_live(word: &str) -> bool
    ensures { MatchBool result (word.now ≡ codes "live") (word.now ≢ codes "live") }
{
    match word {
        "live" => true,
        _ => false,
    }
}

/// The command that one word names.
fn find_one(word: &str) -> Option<Command>
    ensures some { IfSome result (λ command. Name command (word.now ∷ [])) }
    ensures none { IfNone result (NameNone (word.now ∷ [])) }
{
    if is_live(word) {
        return Some(Command::Live);
    }
    match find_mode(word) {
        Some(mode) => Some(Command::Replay(mode)),
        None => None,
    }
}

/// The number that a word spells as it is printed, where it isn't above this one.
fn find_number(word: &str, most: u32) -> Option<u32>
    ensures some { IfSome result (λ n. (word.now ≡ decimal n) × (n ≤ most)) }
    ensures none { IfNone result ((n : ℕ) → n ≤ most → word.now ≢ decimal n) }
{
    let Ok(n) = word.parse::<u32>() else {
        return None;
    };
    let mut printed = Buffer::new();
    if most < n || printed.format(n) != word {
        return None;
    }
    Some(n)
}

/// The trace that these two words ask for behind `make`.
fn find_numbers(start: &str, calls: &str) -> Option<Command>
    ensures some { IfSome result
        (λ command. Name command (codes "make" ∷ start.now ∷ calls.now ∷ [])) }
    ensures none { IfNone result (NameNone (codes "make" ∷ start.now ∷ calls.now ∷ [])) }
{
    let Some(start) = find_number(start, MOST_START) else {
        return None;
    };
    let Some(calls) = find_number(calls, MOST_CALLS) else {
        return None;
    };
    Some(Command::Make { start, calls })
}

/// The command that the words name.
pub fn find_command(words: &[String]) -> Option<Command>
    ensures some { IfSome result (λ command. Name command (map string_bytes words.now)) }
    ensures none { IfNone result (NameNone (map string_bytes words.now)) }
{
    match words {
        [word] => find_one(word.as_str()),
        [word, start, calls] if word.as_str() == "make" => find_numbers(
            start.as_str(),
            calls.as_str(),
        ),
        _ => None,
    }
}
