//! Names that stand in a queue, and the lines that put them there and take them out.
ghost use Rattle.std.specs.Prelude.{◌≡◌, ◌++◌, ◌∷◌, [], OnOk, MatchOption, None, codes};
ghost use Rattle.std.specs.List.{last_or};
ghost use Rattle.vm_model.specs.Words.{line};
ghost use Rattle.trace_maker.specs.WrittenSections.{Takes, Frees};

use std::alloc::AllocError;
use std::collections::VecDeque;
use text_lines::Field::{Number, Tagged};
use text_lines::put_line;

/// Takes the oldest number out of a queue.
fn pop_oldest(queue: &mut VecDeque<u32>) -> Option<u32>
    ensures { MatchOption result ((queue.old.items ≡ []) × (queue.new.items ≡ [])) (λ oldest.
        queue.old.items ≡ oldest ∷ queue.new.items) }
{
    queue.pop_front()
}

/// The newest number of a queue, which stays.
pub fn newest(queue: &VecDeque<u32>) -> Option<u32>
    ensures { result ≡ last_or None queue.now.items }
{
    queue.back().copied()
}

/// Writes a balance, which names nothing.
pub fn put_balance(lines: &mut Vec<u8>) -> Result<(), AllocError>
    ensures { OnOk result (lines.new.items ≡ lines.old.items ++ line (codes "balance" ∷ [])) }
{
    put_line(lines, b"balance", &[])
}

/// Writes a line that takes something under a new name, a letter and the line's number.
pub fn take(
    lines: &mut Vec<u8>,
    queue: &mut VecDeque<u32>,
    word: &[u8],
    letter: &[u8],
    number: u32,
    numbers: (u32, u32),
) -> Result<(), AllocError>
    ensures { OnOk result (Takes word.now letter.now number numbers.0 numbers.1 lines.old.items
        lines.new.items queue.old.items queue.new.items) }
{
    let name = Tagged(letter, u64::from(number));
    let first = Number(u64::from(numbers.0));
    let second = Number(u64::from(numbers.1));
    put_line(lines, word, &[name, first, second])?;
    queue.push_back(number)?;
    Ok(())
}

/// Writes a line that frees the oldest name of a queue, or a balance where there is none.
pub fn free_oldest(
    lines: &mut Vec<u8>,
    queue: &mut VecDeque<u32>,
    word: &[u8],
    letter: &[u8],
) -> Result<(), AllocError>
    ensures { OnOk result (Frees word.now letter.now lines.old.items lines.new.items queue.old.items
        queue.new.items) }
{
    match pop_oldest(queue) {
        Some(oldest) => put_line(lines, word, &[Tagged(letter, u64::from(oldest))]),
        None => put_balance(lines),
    }
}
