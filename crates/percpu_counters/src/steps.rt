//! Single steps on the words.
ghost use Rattle.std.specs.Prelude.{◌≡◌, ◌<◌, ◌≤◌, [], length, Some, None};
ghost use Rattle.percpu_counters.specs.CounterRule.{row_of, cell_of, word_count, put_at, lifted_at, settled_at, IsFound, with_less, with_room, with_both, IsFew};

use crate::table::{
    Adding, Cut, Cutting, Learn, Lift, Look, Place, Put, Settle, Shape, Unite, Words,
};
use vm_model::CountLine;

/// Adds to the cell of a processor. Returns what it had before.
pub(crate) fn put<A: Adding>(words: &Words, place: &mut Place, shape: Shape, line: CountLine) -> u64
    requires line { (A.line ≡ line) × (words.now.key ≡ shape) × (line.counter < shape.counters)
        × (line.cpu < shape.cpus) }
    requires table { (place.old.table_id ≡ words.now.table_id)
        × (words.now.table_id.words ≡ word_count shape) }
    requires room { 0 < place.old.me.0.room }
    ensures table { (place.new.table_id ≡ place.old.table_id) × (place.new.id ≡ place.old.id) }
    ensures view { place.new.me ≡ (
      put_at (cell_of shape line.counter line.cpu) result line
          place.old.me.0,
      place.old.me.1,
    ) }
    ensures found { IsFound place.old.me.0 (cell_of shape line.counter line.cpu) result }
{
    let row = line.counter as usize * (shape.cpus as usize + 1);
    let at = row + 1 + line.cpu as usize;
    words.fetch_add::<Put<A>>(place, at, (line.amount as i64).cast_unsigned())
}

/// Takes all out of the cell of a processor, into the pass's hand.
pub(crate) fn lift<A: Adding>(
    words: &Words,
    place: &mut Place,
    shape: Shape,
    line: CountLine,
) -> u64
    requires line { (A.line ≡ line) × (words.now.key ≡ shape) × (line.counter < shape.counters)
        × (line.cpu < shape.cpus) }
    requires table { (place.old.table_id ≡ words.now.table_id)
        × (words.now.table_id.words ≡ word_count shape) }
    requires added { 0 < length place.old.me.0.adds }
    requires empty { place.old.me.0.hand ≡ None }
    ensures table { (place.new.table_id ≡ place.old.table_id) × (place.new.id ≡ place.old.id) }
    ensures view { place.new.me ≡ (
      lifted_at (cell_of shape line.counter line.cpu) result
          line.counter place.old.me.0,
      place.old.me.1,
    ) }
    ensures found { IsFound place.old.me.0 (cell_of shape line.counter line.cpu) result }
{
    let row = line.counter as usize * (shape.cpus as usize + 1);
    let at = row + 1 + line.cpu as usize;
    words.swap::<Lift<A>>(place, at, 0)
}

/// Adds what is in the pass's hand to the count. Returns what the count was before.
pub(crate) fn settle(
    words: &Words,
    place: &mut Place,
    shape: Shape,
    counter: u16,
    amount: u64,
) -> u64
    requires shape { (words.now.key ≡ shape) × (counter < shape.counters) }
    requires table { (place.old.table_id ≡ words.now.table_id)
        × (words.now.table_id.words ≡ word_count shape) }
    requires added { 0 < length place.old.me.0.adds }
    requires hand { place.old.me.0.hand ≡ Some (counter, amount) }
    ensures table { (place.new.table_id ≡ place.old.table_id) × (place.new.id ≡ place.old.id) }
    ensures view { place.new.me ≡ (
      settled_at (row_of shape counter) result place.old.me.0,
      place.old.me.1,
    ) }
    ensures found { IsFound place.old.me.0 (row_of shape counter) result }
{
    let at = counter as usize * (shape.cpus as usize + 1);
    words.fetch_add::<Settle>(place, at, amount)
}

/// Reads the cell of a processor.
pub(crate) fn look(words: &Words, place: &mut Place, shape: Shape, counter: u16, cpu: u16) -> u64
    requires cell { (words.now.key ≡ shape) × (counter < shape.counters) × (cpu < shape.cpus) }
    requires table { (place.old.table_id ≡ words.now.table_id)
        × (words.now.table_id.words ≡ word_count shape) }
    ensures table { (place.new.table_id ≡ place.old.table_id) × (place.new.id ≡ place.old.id)
        × (place.new.me ≡ place.old.me) }
    ensures found { IsFound place.old.me.0 (cell_of shape counter cpu) result }
{
    let at = counter as usize * (shape.cpus as usize + 1) + 1 + cpu as usize;
    words.load::<Look>(place, at)
}

/// Room of a pass goes to a new one.
pub(crate) fn cut<C: Cutting>(words: &Words, place: &mut Place, shape: Shape, room: u32) -> Place
    requires shape { (C.room ≡ room) × (words.now.key ≡ shape) }
    requires table { (place.old.table_id ≡ words.now.table_id)
        × (words.now.table_id.words ≡ word_count shape) }
    requires room { room ≤ place.old.me.0.room }
    requires empty { place.old.me.0.hand ≡ None }
    ensures table { (place.new.table_id ≡ place.old.table_id)
        × (result.table_id ≡ place.old.table_id) }
    ensures views { (place.new.me ≡ (with_less room place.old.me.0, place.old.me.1))
        × (result.me ≡ (with_room room, [])) }
{
    words.split_seat::<Cut<C>>(place)
}

/// What another pass added, and its room, goes to a pass.
pub(crate) fn unite(words: &Words, place: &mut Place, other: Place, shape: Shape)
    requires shape { words.now.key ≡ shape }
    requires table { (place.old.table_id ≡ words.now.table_id)
        × (other.table_id ≡ words.now.table_id) × (words.now.table_id.words ≡ word_count shape) }
    requires empty { (place.old.me.0.hand ≡ None) × (other.me.0.hand ≡ None) × (other.me.1 ≡ []) }
    ensures table { place.new.table_id ≡ place.old.table_id }
    ensures view { place.new.me ≡ (with_both place.old.me.0 other.me.0, place.old.me.1) }
    ensures few { IsFew place.new.me.0 }
{
    words.join_seat::<Unite>(place, other);
    words.load::<Learn>(place, 0);
}
