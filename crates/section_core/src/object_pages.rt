//! The sections over the pages and words of per-CPU objects.
ghost use Rattle.callers.specs.declared.place.Place.TheVariants as place;
ghost use Rattle.section_core.specs.RegionSides.{pages_region};
ghost use Rattle.section_core.specs.MadeSections.{IsMoved};
ghost use Rattle.section_core.specs.StandsWell.{CanMake};

use callers::{Local, Made, ObjectPlace, Place};
use chunk_slots::Placed;
use page_pool::PageSide;
use vm_model::Reply;

/// Maps the missing pages of an object in every unit and sets its words to 0, or goes on to give it up where there are too
/// few frames.
pub(crate) fn populate(local: &mut Local, pages: &mut PageSide, placed: Placed)
    requires { CanMake (place.Populating placed) local.old (pages_region pages.old) }
    ensures { IsMoved local.old (pages_region pages.old) local.new (pages_region pages.new) }
{
    let units = local.config().layout.units();
    match pages.populate(placed.base, units, placed.missing) {
        Ok(()) => {
            pages.zero_words(placed.base, units, placed.off, placed.bytes);
            local.go(Place::SettlingObject(placed));
        }
        Err(_) => local.go(Place::Unplacing(placed)),
    }
}

/// Sets the words of an object on populated pages to 0 in every unit.
pub(crate) fn zero(local: &mut Local, pages: &mut PageSide, placed: Placed)
    requires { CanMake (place.Zeroing placed) local.old (pages_region pages.old) }
    ensures { IsMoved local.old (pages_region pages.old) local.new (pages_region pages.new) }
{
    let units = local.config().layout.units();
    pages.zero_words(placed.base, units, placed.off, placed.bytes);
    local.go(Place::SettlingAtomic(placed));
}

/// Adds an amount to a processor's word of an object.
pub(crate) fn add_word(
    local: &mut Local,
    pages: &mut PageSide,
    object: ObjectPlace,
    serial: u32,
    cpu: u8,
    index: u32,
    amount: i32,
)
    requires { CanMake (place.Adding object serial cpu index amount) local.old
        (pages_region pages.old) }
    ensures { IsMoved local.old (pages_region pages.old) local.new (pages_region pages.new) }
{
    let _named = serial;
    let unit = local.config().layout.units()[cpu as usize];
    pages.add_word(object.base, unit, object.off + 4 * index, amount);
    local.answer(Reply::Done, Made::Nothing);
}

/// The sum of a word of an object over all processors, which answers the call.
pub(crate) fn sum_words(
    local: &mut Local,
    pages: &mut PageSide,
    object: ObjectPlace,
    serial: u32,
    index: u32,
)
    requires { CanMake (place.Summing object serial index) local.old (pages_region pages.old) }
    ensures { IsMoved local.old (pages_region pages.old) local.new (pages_region pages.new) }
{
    let _named = serial;
    let units = local.config().layout.units();
    let sum = pages.sum_words(object.base, units, object.off + 4 * index);
    local.answer(Reply::Sum(sum), Made::Nothing);
}
