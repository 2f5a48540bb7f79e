//! The picks of an `order` line, as they are read.
ghost use Rattle.std.specs.Prelude.{◌≡◌, ◌≢◌, ◌++◌, ◌∷◌, [], ℕ, IfOk, IfSome, IfNone, IsTrue, decimal};
ghost use Rattle.vm_model.specs.Words.{within};
ghost use Rattle.trace_text.specs.HeldLines.{AddsPicks};

use crate::fields::{cut, number};
use std::alloc::AllocError;

/// How many picks an `order` line may have.
const MOST_PICKS: usize = 64;

/// The caller that a field picks.
fn pick(field: &[u8], callers: u16) -> Option<u16>
    ensures some { IfSome result (λ caller.
        IsTrue (within 1 callers caller) × (field.now ≡ decimal caller)) }
    ensures none { IfNone result ((caller : ℕ) → IsTrue (within 1 callers caller)
        → field.now ≢ decimal caller) }
{
    let Some(caller) = number(field) else {
        return None;
    };
    if caller < 1 || (callers as u64) < caller {
        return None;
    }
    Some(caller as u16)
}

/// The caller that so many bytes pick, where a space is behind them, and the text behind that space.
fn pick_before(text: &[u8], callers: u16, width: usize) -> Option<(u16, &[u8])>
    ensures { IfSome result (λ found.
        IsTrue (within 1 callers found.0) × (text.now ≡ decimal found.0 ++ 32 ∷ found.1.now)) }
{
    if text.len() <= width || text[width] != b' ' {
        return None;
    }
    let Some(caller) = pick(&text[..width], callers) else {
        return None;
    };
    Some((caller, &text[width + 1..]))
}

/// The caller that one digit picks.
fn digit_pick(digit: u8, callers: u16) -> Option<u16>
    ensures { IfSome result (λ caller.
        IsTrue (within 1 callers caller) × (digit ∷ [] ≡ decimal caller)) }
{
    if digit < b'1' || b'9' < digit {
        return None;
    }
    let caller = u16::from(digit - b'0');
    if callers < caller {
        return None;
    }
    Some(caller)
}

/// The caller that one digit picks, where a space is behind it, and the text behind that space.
fn digit_before(text: &[u8], callers: u16) -> Option<(u16, &[u8])>
    ensures { IfSome result (λ found.
        IsTrue (within 1 callers found.0) × (text.now ≡ decimal found.0 ++ 32 ∷ found.1.now)) }
{
    if text.len() < 2 || text[1] != b' ' {
        return None;
    }
    let Some(caller) = digit_pick(text[0], callers) else {
        return None;
    };
    Some((caller, &text[2..]))
}

/// The caller that a text of one digit picks.
fn last_digit(text: &[u8], callers: u16) -> Option<u16>
    ensures { IfSome result (λ caller.
        IsTrue (within 1 callers caller) × (text.now ≡ decimal caller)) }
{
    if text.len() != 1 {
        return None;
    }
    digit_pick(text[0], callers)
}

/// The caller that one or two digits pick, where a space is behind them, and the text behind that space: no trace has more than 16 callers.
fn short_pick(text: &[u8], callers: u16) -> Option<(u16, &[u8])>
    ensures { IfSome result (λ found.
        IsTrue (within 1 callers found.0) × (text.now ≡ decimal found.0 ++ 32 ∷ found.1.now)) }
{
    match digit_before(text, callers) {
        Some(found) => Some(found),
        None => pick_before(text, callers, 2),
    }
}

/// Puts the picks that a text is behind those of earlier lines. A text of no picks, or of more than 64, may leave some.
pub fn read_picks(picks: &mut Vec<u16>, callers: u16, text: &[u8]) -> Result<bool, AllocError>
    ensures { IfOk result (λ stood.
        AddsPicks callers text.now stood picks.old.items picks.new.items) }
{
    let mut rest = text;
    for _count in 0..MOST_PICKS {
        if let Some((caller, more)) = short_pick(rest, callers) {
            picks.push(caller)?;
            rest = more;
            continue;
        }
        if let Some(caller) = last_digit(rest, callers) {
            picks.push(caller)?;
            return Ok(true);
        }
        let Some((field, more)) = cut(rest, b' ') else {
            let Some(caller) = pick(rest, callers) else {
                return Ok(false);
            };
            picks.push(caller)?;
            return Ok(true);
        };
        let Some(caller) = pick(field, callers) else {
            return Ok(false);
        };
        picks.push(caller)?;
        rest = more;
    }
    Ok(false)
}
