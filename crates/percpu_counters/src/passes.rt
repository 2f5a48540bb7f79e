//! Passes that are cut in two, and joined.
ghost use Rattle.std.specs.Prelude.{◌≡◌, ◌≤◌, ◌+◌, [], ◌++◌, false};
ghost use Rattle.percpu_counters.specs.Passes.{adds_of, spare_of, is_alone, IsPassOf};

use crate::counters::{CountPass, Counters};
use crate::steps::{cut, unite};
use std::marker::Brand;

impl Counters {
    /// A new pass with room for so many adds, which is taken from another. Neither is alone then. It takes no memory.
    pub fn split(&self, from: &mut CountPass, room: u32) -> CountPass
        requires pass { IsPassOf self.now from.old }
        requires room { room ≤ spare_of from.old }
        ensures pass { IsPassOf self.now from.new × IsPassOf self.now result }
        ensures adds { (adds_of from.new ≡ adds_of from.old) × (adds_of result ≡ []) }
        ensures spare { (spare_of from.new + room ≡ spare_of from.old) × (spare_of result ≡ room) }
        ensures alone { (is_alone from.new ≡ false) × (is_alone result ≡ false) }
    {
        let place = cut::<Brand>(&self.table.shared, &mut from.place, self.shape, room);
        from.spare -= room;
        CountPass { place, spare: room }
    }

    /// What another pass added, and its spare adds, are this pass's. It takes no memory.
    pub fn join(&self, into: &mut CountPass, other: CountPass)
        requires pass { IsPassOf self.now into.old × IsPassOf self.now other }
        ensures pass { IsPassOf self.now into.new }
        ensures adds { adds_of into.new ≡ adds_of into.old ++ adds_of other }
        ensures spare { spare_of into.new ≡ spare_of into.old + spare_of other }
        ensures alone { is_alone into.new ≡ false }
    {
        let CountPass { place, spare } = other;
        unite(&self.table.shared, &mut into.place, place, self.shape);
        into.spare += spare;
    }
}
