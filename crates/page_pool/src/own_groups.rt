//! Elements in groups of 128, which are written when one of them is asked for the first time.
ghost use Rattle.std.specs.Prelude.{◌≡◌, ◌<◌, length, slice_index_or, vec_capacity};
ghost use Rattle.page_pool.specs.GroupedLists.{AreGroups, IsOwn};

/// How many elements a group has. They are written, all blank, when one of them is to be another for the first time.
pub(crate) const GROUP: usize = 128;

/// The place of the first element of a group among the written ones, after its elements were written if they never were.
#[inline]
pub(crate) fn own_group<T: Copy>(
    numbers: &mut Vec<u32>,
    written: &mut Vec<T>,
    blank: T,
    group: usize,
) -> usize
    requires within { group < length numbers.old.items }
    requires groups { AreGroups T blank numbers.old.items written.old.items
        (vec_capacity written.old) }
    ensures { IsOwn T blank numbers.old.items written.old.items numbers.new.items written.new.items
        (vec_capacity written.new) group result }
{
    if numbers[group] > 0 {
        return numbers[group] as usize * GROUP;
    }
    write_group(numbers, written, blank, group)
}

/// Writes the elements of a group that never were, and gives the place of the first.
#[cold]
#[inline(never)]
fn write_group<T: Copy>(
    numbers: &mut Vec<u32>,
    written: &mut Vec<T>,
    blank: T,
    group: usize,
) -> usize
    requires within { group < length numbers.old.items }
    requires unwritten { slice_index_or numbers.old.items group 0 ≡ 0 }
    requires groups { AreGroups T blank numbers.old.items written.old.items
        (vec_capacity written.old) }
    ensures { IsOwn T blank numbers.old.items written.old.items numbers.new.items written.new.items
        (vec_capacity written.new) group result }
{
    let first = written.len();
    let Ok(()) = written.resize(first + GROUP, blank) else {
        unreachable!();
    };
    numbers[group] = (first / GROUP) as u32;
    first
}
