//! Drawn calls, beside a list that tells of each page whether it is taken, and a plain scan of it.
ghost use Rattle.std.specs.Prelude.{◌≤◌, ◌<◌};
ghost use Rattle.vm_model.specs.Space.{end_of};

use crate::looks::{are_free, are_taken};
use augmented_tree::FreeSide;
use std::alloc::{AllocError, Global};
use vm_model::{Span, plain_lowest};

/// 160 pages, and which of them are taken.
#[derive(Drop)]
struct Space {
    alloc: Global,
    side: FreeSide,
    taken: [bool; 160],
}

/// Marks pages as taken or not.
fn mark(taken: &mut [bool; 160], span: Span, value: bool) {
    for (page, mark) in taken.iter_mut().enumerate() {
        if page as u64 >= u64::from(span.start)
            && (page as u64) < u64::from(span.start) + u64::from(span.pages)
        {
            *mark = value;
        }
    }
}

/// The maximal spans of pages that are all taken, or all not.
fn runs(alloc: Global, taken: &[bool; 160], value: bool) -> Result<Vec<Span>, AllocError> {
    let mut runs = Vec::new(alloc);
    let mut run = Span { start: 0, pages: 0 };
    for page in 0..=160 {
        if taken.get(page as usize) == Some(&value) {
            run.pages = run.pages.saturating_add(1);
            continue;
        }
        if run.pages > 0 {
            runs.push(run)?;
        }
        run = Span {
            start: page + 1,
            pages: 0,
        };
    }
    Ok(runs)
}

/// Takes the lowest fit out, and tells whether it is that of the plain scan.
fn carve(space: &mut Space, pages: u32, align: u32) -> Result<bool, AllocError>
    requires pages { 1 ≤ pages }
    requires align { 1 ≤ align }
{
    let taken = runs(space.alloc, &space.taken, true)?;
    let wanted = plain_lowest(taken.as_slice(), 160, pages, align);
    let found = space.side.carve(pages, align)?;
    if let Some(place) = found {
        mark(&mut space.taken, place, true);
    }
    Ok(found.map(|place| place.start) == wanted)
}

/// Takes a place out, where it is free, and tells whether no other node was used.
fn carve_at(space: &mut Space, place: Span) -> Result<bool, AllocError>
    requires { end_of place ≤ 1048576 }
{
    if !are_free(&space.side, place) {
        return Ok(true);
    }
    space.side.reserve(2)?;
    let spare = space.side.spare();
    space.side.carve_at(place);
    mark(&mut space.taken, place, true);
    Ok(space.side.spare() < spare)
}

/// Gives a place back, where it is taken.
fn release(space: &mut Space, place: Span) -> Result<(), AllocError>
    requires some { 1 ≤ place.pages }
    requires end { end_of place ≤ 1048576 }
{
    if !are_taken(&space.side, place) {
        return Ok(());
    }
    space.side.release_all(&[place])?;
    mark(&mut space.taken, place, false);
    Ok(())
}

/// Numbers as by dice, the same ones each time.
#[derive(Drop)]
struct Dice {
    state: u32,
}

impl Dice {
    /// A number below a limit.
    fn below(&mut self, limit: u32) -> u32
        requires { 1 ≤ limit }
        ensures { result < limit }
    {
        self.state = self
            .state
            .wrapping_mul(1_664_525)
            .wrapping_add(1_013_904_223);
        (self.state / 65_536) % limit
    }
}

/// Makes a drawn call, and tells whether its answer was right.
fn step(space: &mut Space, dice: &mut Dice) -> Result<bool, AllocError> {
    let kind = dice.below(4);
    let pages = 1 + dice.below(4);
    if kind == 0 {
        return carve(space, pages, 1 + dice.below(9));
    }
    let place = Span {
        start: dice.below(156),
        pages,
    };
    if kind == 1 {
        return carve_at(space, place);
    }
    release(space, place)?;
    Ok(true)
}

/// Whether the blocks are the maximal spans of pages that aren't taken, and the largest is told.
fn are_alike(space: &Space) -> Result<bool, AllocError> {
    let free = runs(space.alloc, &space.taken, false)?;
    let largest = free.iter().fold(0, |most: u32, run| most.max(run.pages));
    let blocks = space.side.blocks(space.alloc)?;
    Ok(blocks.as_slice() == free.as_slice() && space.side.largest() == largest)
}

#[test]
fn drawn_calls(rt: HostRuntime) -> Result<(), AllocError> {
    let mut space = Space {
        alloc: rt.alloc(),
        side: FreeSide::whole(rt.alloc(), 160)?,
        taken: [false; 160],
    };
    let mut dice = Dice { state: 1 };
    for count in 0..2_000 {
        assert!(rt; step(&mut space, &mut dice)?, "{count}");
        assert!(rt; are_alike(&space)?, "{count}");
    }
    Ok(())
}
