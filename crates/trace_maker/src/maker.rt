//! Making a trace.
ghost use Rattle.std.specs.Prelude.{◌≡◌, ◌<◌, ◌≤◌, ◌*◌, ◌^◌, ◌++◌, ℕ, IfOk, OnOk, length, replicate};
ghost use Rattle.trace_text.specs.SpelledLines.{text_of};
ghost use Rattle.trace_maker.specs.Generated.{Section, Making, generated, header_lines, section_lines, sections_from, made, one_more, no_lines};
ghost use Rattle.trace_maker.specs.WrittenSections.{IsWritten, AreMade};

use crate::draws::Draws;
use crate::picks::put_order;
use crate::sections::{SectionText, add_line, no_lines};
use std::alloc::{AllocError, Global};
use text_lines::Field::{Number, Word};
use text_lines::{Text, put_field, put_line};

/// How many callers there are beside the opening.
const CALLERS: u32 = 8;

/// The lines before the sections.
const HEADER: &[u8] =
    b"vmtrace 1\nspace 65536\nframes 8192\nlazy 256\nblock 128 64\nunit 8 1\ngroup 4 0\ncallers 8\ncounters 4 32\n";

/// A section without lines for each caller.
fn no_sections(alloc: Global) -> [SectionText; 8]
    ensures { (state : ℕ) → AreMade result state
        (record { sections = replicate 8 no_lines; state = state }) }
{
    [
        no_lines(alloc),
        no_lines(alloc),
        no_lines(alloc),
        no_lines(alloc),
        no_lines(alloc),
        no_lines(alloc),
        no_lines(alloc),
        no_lines(alloc),
    ]
}

/// Puts one line more into the section of a caller that is drawn.
fn add_one(sections: &mut [SectionText], draws: &mut Draws, number: u32) -> Result<(), AllocError>
    requires { length sections.old ≡ 8 }
    ensures { OnOk result ((m : Making) → AreMade sections.old draws.old.state m
        → AreMade sections.new draws.new.state (one_more number m)) }
{
    let caller = draws.draw_below(CALLERS);
    add_line(&mut sections[caller as usize], draws, number)
}

/// Puts the lines of all calls into the sections.
fn add_lines(sections: &mut [SectionText], draws: &mut Draws, calls: u32) -> Result<(), AllocError>
    requires sections { length sections.old ≡ 8 }
    requires calls { calls ≤ 100000 }
    ensures { OnOk result ((m : Making) → AreMade sections.old draws.old.state m
        → AreMade sections.new draws.new.state (made calls 1 m)) }
{
    for number in 1..calls + 1 {
        add_one(sections, draws, number)?;
    }
    Ok(())
}

/// Writes a caller's section, where it has lines.
fn put_section(text: &mut Vec<u8>, caller: u64, section: &SectionText) -> Result<(), AllocError>
    ensures { OnOk result ((s : Section) → IsWritten section.now s
        → text.new.items ≡ text.old.items ++ text_of (section_lines caller s.lines)) }
{
    if section.lines.is_empty() {
        return Ok(());
    }
    put_line(text, b"caller", &[Number(caller)])?;
    text.extend_from_slice(section.lines.as_slice())
}

/// Writes the section of each caller.
fn put_sections(text: &mut Vec<u8>, sections: &[SectionText]) -> Result<(), AllocError>
    ensures { OnOk result ((state : ℕ) (m : Making) → AreMade sections.now state m
        → text.new.items ≡ text.old.items ++ text_of (sections_from 1 m.sections)) }
{
    for (i, section) in sections.iter().enumerate() {
        put_section(text, i as u64 + 1, section)?;
    }
    Ok(())
}

/// Writes the lines before the sections.
fn put_header(text: &mut Vec<u8>) -> Result<(), AllocError>
    ensures { OnOk result (text.new.items ≡ text.old.items ++ text_of header_lines) }
{
    put_field(text, Word(HEADER))
}

/// Makes a trace of so many call and count lines, of what is drawn from a start on. It takes time in proportion to them.
pub fn make_trace(alloc: Global, start: u32, calls: u32) -> Result<Text, AllocError>
    requires start { start < 2 ^ 31 }
    requires calls { calls ≤ 100000 }
    ensures { IfOk result (λ text. text ≡ generated start calls) }
{
    let mut draws = Draws { state: start };
    let mut sections = no_sections(alloc);
    add_lines(&mut sections, &mut draws, calls)?;
    let mut text = Vec::new(alloc);
    put_header(&mut text)?;
    put_sections(&mut text, &sections)?;
    put_order(&mut text, &mut draws, 4 * calls)?;
    put_line(&mut text, b"end", &[])?;
    Ok(Text::of(text))
}
