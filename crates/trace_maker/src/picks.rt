//! The picks of the callers, in lines.
ghost use Rattle.std.specs.Prelude.{◌≡◌, ◌<◌, ◌≤◌, ◌*◌, ◌++◌, ℕ, OnOk};
ghost use Rattle.trace_text.specs.SpelledLines.{Order, text_of, text_of_line};
ghost use Rattle.trace_maker.specs.Generated.{drawn_picks, order_lines, state_after};

use crate::draws::Draws;
use std::alloc::AllocError;
use text_lines::Field::{Number, Word};
use text_lines::{put_field, put_words};

/// How many picks a line has, but for the last one.
const PICKS: u32 = 32;

/// Writes a line of so many picks.
fn put_picks(text: &mut Vec<u8>, draws: &mut Draws, count: u32) -> Result<(), AllocError>
    ensures text { OnOk result (text.new.items
        ≡ text.old.items ++ text_of_line (Order (drawn_picks count draws.old.state))) }
    ensures state { OnOk result (draws.new.state ≡ state_after count draws.old.state) }
{
    put_field(text, Word(b"order"))?;
    for _pick in 0..count {
        let caller = 1 + draws.draw_below(8);
        put_words(text, &[Number(u64::from(caller))])?;
    }
    put_field(text, Word(b"\n"))
}

/// Writes so many picks, in lines.
pub fn put_order(text: &mut Vec<u8>, draws: &mut Draws, picks: u32) -> Result<(), AllocError>
    ensures { OnOk result ((lines : ℕ) → picks ≤ 32 * lines
        → text.new.items ≡ text.old.items
        ++ text_of (order_lines lines (drawn_picks picks draws.old.state))) }
{
    let mut left = picks;
    while 0 < left {
        let count = left.min(PICKS);
        put_picks(text, draws, count)?;
        left -= count;
    }
    Ok(())
}
