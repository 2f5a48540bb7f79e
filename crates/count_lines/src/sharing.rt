//! A pass is cut into shares, and put together again.
ghost use Rattle.std.specs.Prelude.{◌≡◌, ◌≤◌, ◌+◌, ◌++◌, ℕ, All, IfOk, length, map};
ghost use Rattle.std.specs.List.{flat_map};
ghost use Rattle.percpu_counters.specs.Passes.{shape_of, adds_of, spare_of, IsPassOf};
ghost use Rattle.count_lines.specs.LinesOfCaller.{added_by, lines_by};
ghost use Rattle.count_lines.specs.Shares.{caller_of, lines_in, done_in, IsLineOf, IsShareOf, IsFinished, AreSharesOf};

use crate::share::Share;
use percpu_counters::{CountPass, Counters};
use std::alloc::{AllocError, Global};
use vm_model::CountLine;

/// The lines of a caller, in their order.
fn own_lines(alloc: Global, lines: &[CountLine], caller: u16) -> Result<Vec<CountLine>, AllocError>
    ensures { IfOk result (λ own. own.items ≡ lines_by caller lines.now) }
{
    let mut own = Vec::new(alloc);
    for line in lines {
        if line.caller == caller {
            own.push(*line)?;
        }
    }
    Ok(own)
}

/// The share of a caller, which takes room for its lines from a pass.
fn share_of(
    alloc: Global,
    counters: &Counters,
    pass: &mut CountPass,
    lines: &[CountLine],
    caller: u16,
) -> Result<Share, AllocError>
    requires pass { IsPassOf counters.now pass.old }
    requires room { length (lines_by caller lines.now) ≤ spare_of pass.old }
    requires lines { (callers : ℕ) × All (IsLineOf (shape_of counters.now) callers) lines.now }
    ensures pass { IfOk result (λ _. IsPassOf counters.now pass.new) }
    ensures share { IfOk result (λ share. IsShareOf counters.now share) }
    ensures caller { IfOk result (λ share. caller_of share ≡ caller) }
    ensures lines { IfOk result (λ share. lines_in share ≡ lines_by caller lines.now) }
    ensures done { IfOk result (λ share. done_in share ≡ 0) }
    ensures adds { adds_of pass.new ≡ adds_of pass.old }
    ensures spare { IfOk result (λ share.
        spare_of pass.new + length (lines_in share) ≡ spare_of pass.old) }
{
    let lines = own_lines(alloc, lines, caller)?;
    let spare = pass.spare();
    prove!(lines.len() <= spare as usize);
    let pass = counters.split(pass, lines.len() as u32);
    Ok(Share {
        caller,
        lines,
        done: 0,
        pass,
    })
}

/// What a share added is a pass's.
fn join_share(counters: &Counters, pass: &mut CountPass, share: Share)
    requires pass { IsPassOf counters.now pass.old }
    requires share { IsShareOf counters.now share }
    requires finished { IsFinished share }
    ensures pass { IsPassOf counters.now pass.new }
    ensures adds { adds_of pass.new ≡ adds_of pass.old ++ map added_by (lines_in share) }
    ensures spare { spare_of pass.new ≡ spare_of pass.old }
{
    let Share { pass: own, .. } = share;
    counters.join(pass, own);
}

/// Adds the lines of the opening.
fn count_opening(
    alloc: Global,
    counters: &Counters,
    pass: &mut CountPass,
    lines: &[CountLine],
) -> Result<(), AllocError>
    requires pass { IsPassOf counters.now pass.old }
    requires room { length (lines_by 0 lines.now) ≤ spare_of pass.old }
    requires lines { (callers : ℕ) × All (IsLineOf (shape_of counters.now) callers) lines.now }
    ensures pass { IfOk result (λ _. IsPassOf counters.now pass.new) }
    ensures adds { IfOk result (λ _.
        adds_of pass.new ≡ adds_of pass.old ++ map added_by (lines_by 0 lines.now)) }
    ensures spare { IfOk result (λ _.
        spare_of pass.new + length (lines_by 0 lines.now) ≡ spare_of pass.old) }
{
    let mut share = share_of(alloc, counters, pass, lines, 0)?;
    share.finish(counters);
    join_share(counters, pass, share);
    Ok(())
}

/// Adds the lines of the opening, and gives each caller, from 1, a share of the pass with its lines. Where it is refused
/// memory, the room of the shares that were made is lost.
pub fn share_out(
    alloc: Global,
    counters: &Counters,
    pass: &mut CountPass,
    lines: &[CountLine],
    callers: u16,
) -> Result<Vec<Share>, AllocError>
    requires pass { IsPassOf counters.now pass.old }
    requires room { length lines.now ≤ spare_of pass.old }
    requires lines { All (IsLineOf (shape_of counters.now) callers) lines.now }
    ensures pass { IfOk result (λ _. IsPassOf counters.now pass.new) }
    ensures shares { IfOk result (λ shares.
        AreSharesOf counters.now callers lines.now shares.items) }
    ensures adds { IfOk result (λ _.
        adds_of pass.new ≡ adds_of pass.old ++ map added_by (lines_by 0 lines.now)) }
    ensures spare { IfOk result (λ _. spare_of pass.new + length lines.now ≡ spare_of pass.old) }
{
    count_opening(alloc, counters, pass, lines)?;
    let mut shares = Vec::new(alloc);
    for done in 0..callers {
        shares.push(share_of(alloc, counters, pass, lines, done + 1)?)?;
    }
    Ok(shares)
}

/// What all shares added is a pass's, behind what it had. It takes no memory.
pub fn join_all(counters: &Counters, pass: &mut CountPass, shares: Vec<Share>)
    requires pass { IsPassOf counters.now pass.old }
    requires shares { All (IsShareOf counters.now) shares.items }
    requires finished { All IsFinished shares.items }
    ensures pass { IsPassOf counters.now pass.new }
    ensures adds { adds_of pass.new
        ≡ adds_of pass.old ++ map added_by (flat_map lines_in shares.items) }
    ensures spare { spare_of pass.new ≡ spare_of pass.old }
{
    for share in shares {
        join_share(counters, pass, share);
    }
}
