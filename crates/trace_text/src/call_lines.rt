//! The lines of calls, as they are read.
ghost use Rattle.std.specs.Prelude.{◌≡◌, ◌<◌, ◌++◌, ◌∷◌, [], ◌&&◌, true, IfOk, OnOk, IfSome, IfNone, IsTrue, codes};
ghost use Rattle.trace_text.specs.Reading.{Reading, with_call, with_name};
ghost use Rattle.vm_model.specs.Words.{is_name};
ghost use Rattle.trace_text.specs.Grammar.{is_new, is_vmalloc, is_map_ram, most_lines};
ghost use Rattle.trace_text.specs.HeldLines.{AddsCall, IsHeld, Steps, NamesCall, NamesNone, has_place, has_size, target_call};

use crate::fields::{named_pair, target};
use crate::groups::cpu_count;
use crate::names::named_call;
use crate::progress::{CALLS, Progress, SPACE};
use std::alloc::AllocError;
use vm_model::{Call, Target};

/// How many call and count lines a trace may have.
const MOST_LINES: usize = 100_000;

/// Whether a call line may come next.
pub fn has_place(progress: &Progress) -> bool
    ensures place { (r : Reading) → IsHeld progress.now r → result ≡ has_place r }
    ensures room { IsTrue result → progress.now.lines < most_lines }
{
    SPACE <= progress.rank && progress.rank <= CALLS && progress.lines < MOST_LINES
}

/// Puts a call behind others. The first takes room for so many.
fn push_call(calls: &mut Vec<Call>, room: usize, call: Call) -> Result<(), AllocError>
    ensures { OnOk result (calls.new.items ≡ calls.old.items ++ call ∷ []) }
{
    if calls.is_empty() {
        calls.reserve(room)?;
    }
    calls.push(call)?;
    Ok(())
}

/// Puts a call behind those of the open section, which takes room for as many as there are slots for names.
#[inline(always)]
fn put_call(progress: &mut Progress, call: Call) -> Result<(), AllocError>
    requires { progress.old.lines < most_lines }
    ensures adds { OnOk result (AddsCall progress.old progress.new call) }
    ensures names { OnOk result (progress.new.names ≡ progress.old.names) }
{
    let room = progress.names.wanted();
    push_call(&mut progress.calls, room, call)?;
    progress.lines += 1;
    progress.rank = CALLS;
    Ok(())
}

/// The same, in a line that may stand.
pub fn add_call(progress: &mut Progress, call: Call) -> Result<(), AllocError>
    requires { progress.old.lines < most_lines }
    ensures { OnOk result ((r : Reading) → IsHeld progress.old r
        → IsHeld progress.new (record (with_call r call) { rank = 10 })) }
{
    put_call(progress, call)?;
    Ok(())
}

/// The same of a call with a name, where the name is new.
pub fn add_named_call(progress: &mut Progress, name: &[u8], call: Call) -> Result<bool, AllocError>
    requires room { progress.old.lines < most_lines }
    requires name { IsTrue (is_name name.now) }
    requires size { IsTrue (has_size call) }
    ensures new { IfOk result (λ added. (r : Reading) → IsHeld progress.old r
        → added ≡ is_new r name.now) }
    ensures added { IfOk result (λ added. (r : Reading) → IsHeld progress.old r
        → is_new r name.now ≡ true → IsHeld progress.new
        (record (with_name r name.now call) { rank = 10 })) }
{
    let place = progress.calls.len();
    if !progress.names.insert(name, place)? {
        return Ok(false);
    }
    put_call(progress, call)?;
    Ok(true)
}

/// Reads `vmalloc NAME BYTES ALIGN`, after its word.
pub fn read_vmalloc(progress: &mut Progress, text: &[u8]) -> Result<bool, AllocError>
    ensures { IfOk result (λ stood. (r : Reading) → IsHeld progress.old r
        → Steps r (codes "vmalloc " ++ text.now) stood progress.new) }
{
    let Some((name, bytes, align)) = named_pair(text) else {
        return Ok(false);
    };
    if !has_place(progress) {
        return Ok(false);
    }
    if !add_named_call(progress, name, Call::Vmalloc { bytes, align })? {
        return Ok(false);
    }
    Ok(true)
}

/// Reads `map_ram NAME CPU PAGES`, after its word.
pub fn read_map_ram(progress: &mut Progress, text: &[u8]) -> Result<bool, AllocError>
    ensures { IfOk result (λ stood. (r : Reading) → IsHeld progress.old r
        → Steps r (codes "map_ram " ++ text.now) stood progress.new) }
{
    let Some((name, cpu, pages)) = named_pair(text) else {
        return Ok(false);
    };
    if u64::from(cpu_count(progress)) <= cpu {
        return Ok(false);
    }
    if !has_place(progress) {
        return Ok(false);
    }
    let call = Call::MapRam {
        cpu: cpu as u16,
        pages,
    };
    if !add_named_call(progress, name, call)? {
        return Ok(false);
    }
    Ok(true)
}

/// The call that a target names, with its number in its section. In the opening no call has the name `0.NAME`.
fn target_call(progress: &Progress, opening: bool, name: &[u8]) -> Option<(usize, Call)>
    requires { IsTrue (is_name name.now) }
    ensures { (r : Reading) → IsHeld progress.now r
        → result ≡ target_call r (record { opening = opening; name = name.now }) }
{
    if !opening {
        return named_call(&progress.names, progress.calls.as_slice(), name);
    }
    let Some(section) = progress.closed.first() else {
        return None;
    };
    named_call(&progress.opening_names, section.as_slice(), name)
}

/// The target that the text is, and the call that it names.
#[inline(always)]
pub fn aimed_at(progress: &Progress, text: &[u8]) -> Option<(Target, Call)>
    requires held { (r : Reading) × IsHeld progress.now r }
    requires room { progress.now.lines < most_lines }
    ensures some { IfSome result (λ found. (r : Reading) → IsHeld progress.now r
        → NamesCall r text.now found.0 found.1) }
    ensures none { IfNone result ((r : Reading) → IsHeld progress.now r → NamesNone r text.now) }
{
    let (opening, name) = target(text)?;
    let (number, call) = target_call(progress, opening, name)?;
    let target = Target {
        opening,
        call: number as u32,
    };
    Some((target, call))
}

fn is_vmalloc(call: Call) -> bool
    ensures { result ≡ is_vmalloc call }
{
    matches!(call, Call::Vmalloc { .. })
}

fn is_map_ram(call: Call) -> bool
    ensures { result ≡ is_map_ram call }
{
    matches!(call, Call::MapRam { .. })
}

/// Reads `vfree TARGET`, after its word.
pub fn read_vfree(progress: &mut Progress, text: &[u8]) -> Result<bool, AllocError>
    requires held { (r : Reading) × IsHeld progress.old r }
    ensures { IfOk result (λ stood. (r : Reading) → IsHeld progress.old r
        → Steps r (codes "vfree " ++ text.now) stood progress.new) }
{
    if !has_place(progress) {
        return Ok(false);
    }
    let Some((target, call)) = aimed_at(progress, text) else {
        return Ok(false);
    };
    if !is_vmalloc(call) {
        return Ok(false);
    }
    add_call(progress, Call::Vfree { target })?;
    Ok(true)
}

/// Reads `unmap_ram TARGET`, after its word.
pub fn read_unmap_ram(progress: &mut Progress, text: &[u8]) -> Result<bool, AllocError>
    requires held { (r : Reading) × IsHeld progress.old r }
    ensures { IfOk result (λ stood. (r : Reading) → IsHeld progress.old r
        → Steps r (codes "unmap_ram " ++ text.now) stood progress.new) }
{
    if !has_place(progress) {
        return Ok(false);
    }
    let Some((target, call)) = aimed_at(progress, text) else {
        return Ok(false);
    };
    if !is_map_ram(call) {
        return Ok(false);
    }
    add_call(progress, Call::UnmapRam { target })?;
    Ok(true)
}

/// Reads `unmap_aliases`.
pub fn read_unmap_aliases(progress: &mut Progress) -> Result<bool, AllocError>
    ensures { IfOk result (λ stood. (r : Reading) → IsHeld progress.old r
        → Steps r (codes "unmap_aliases") stood progress.new) }
{
    if !has_place(progress) {
        return Ok(false);
    }
    add_call(progress, Call::UnmapAliases)?;
    Ok(true)
}
