//! The live areas, by start: the kernel's tree `vmap_area_root`.
ghost use Rattle.std.specs.Prelude.{◌≡◌, ◌≤◌, true, false, All, ◌+◌, ◌^◌, ◌<◌, ◌↔◌, ℕ, [], ◌∷◌, length, Contains, slice_get, Some, IfOk, OnOk, OnErr, IfSome, IfNone, IsNone, OnSome};
ghost use Rattle.std.specs.Ordering.{nat_cmp};
ghost use Rattle.std.specs.BTreeMap.{insert_entry, values};
ghost use Rattle.vm_model.specs.declared.areas.Span.{Span};
ghost use Rattle.vm_model.specs.declared.areas.Area.{Area};
ghost use Rattle.vm_model.specs.Space.{holds, covers, times};
ghost use Rattle.vm_model.specs.Areas.{named_areas, without_area, areas_elsewhere, spans_of};
ghost use Rattle.busy_areas.specs.LiveAreaRows.{with_new};
ghost use Rattle.busy_areas.specs.KeptAreas.{AreApartFrom, AreJoined, CanJoin, IsUnused, asked_spans, asked_starts};

use std::alloc::{AllocError, Global};
use std::collections::BTreeMap;
use std::marker::Model;
use vm_model::{Area, AreaKind, AreaList, Span};

/// The live areas of a space, and the serial of the next: the kernel's `vmap_area_root`, whose areas have no serials.
/// No two of them share a page.
#[derive(Drop)]
pub struct BusySide {
    areas: BTreeMap<u32, Area>,
    next: u32,
    alloc: Global,
}

impl Model for BusySide {
    ghost use Rattle.std.specs.BTreeMap.{values};
    ghost use Rattle.busy_areas.specs.LiveAreaRows.{LiveRows};
    ghost use Rattle.busy_areas.specs.KeptAreas.{AreKept};

    ghost Value = { LiveRows };

    ghost view = { λ s. record { areas = values s.areas; next = s.next } };

    ghost invariant = { λ s. AreKept s.areas.entries s.next };
}

/// Puts an area under its start.
fn put_area(areas: &mut BTreeMap<u32, Area>, area: Area) -> Result<(), AllocError>
    ensures ok { OnOk result (areas.new.entries
        ≡ insert_entry nat_cmp areas.old.entries area.span.start area) }
    ensures err { OnErr result (areas.new.entries ≡ areas.old.entries) }
{
    match areas.insert(area.span.start, area) {
        Ok(_) => Ok(()),
        Err(_) => Err(AllocError),
    }
}

/// Takes the areas away that start where the spans do.
fn take_back(areas: &mut BTreeMap<u32, Area>, put: &[(Span, AreaKind)])
    requires { AreApartFrom 0 areas.old.entries }
    ensures apart { AreApartFrom 0 areas.new.entries }
    ensures others { values areas.new ≡ areas_elsewhere (asked_starts put.now) (values areas.old) }
{
    for (span, _) in put {
        areas.remove(&span.start);
    }
}

/// Puts areas of a caller, with serials from the first on. An error leaves the areas as they were.
fn put_all(
    areas: &mut BTreeMap<u32, Area>,
    new: &[(Span, AreaKind)],
    caller: u16,
    first: u32,
) -> Result<(), AllocError>
    requires apart { AreApartFrom 0 areas.old.entries }
    requires join { CanJoin (values areas.old) new.now }
    requires serials { first + length new.now < 2 ^ 32 }
    ensures ok { OnOk result (AreJoined caller first new.now areas.old.entries areas.new.entries) }
    ensures err { OnErr result (areas.new.entries ≡ areas.old.entries) }
{
    for (index, (span, kind)) in new.iter().enumerate() {
        let area = Area {
            span: *span,
            kind: *kind,
            caller,
            serial: first + index as u32,
        };
        if put_area(areas, area).is_err() {
            take_back(areas, &new[..index]);
            return Err(AllocError);
        }
    }
    Ok(())
}

impl BusySide {
    /// No area is live, and the next serial is 1. It takes no memory.
    pub fn new(alloc: Global) -> BusySide
        ensures empty { result ≡ record { areas = []; next = 1 } }
    {
        BusySide {
            areas: BTreeMap::new(alloc),
            next: 1,
            alloc,
        }
    }

    /// Puts a live area, which gets the next serial, among the others, as `insert_vmap_area` does. The serial is the
    /// answer. An error comes for want of memory only.
    pub fn insert(&mut self, span: Span, kind: AreaKind, caller: u16) -> Result<u32, AllocError>
        requires page { 0 < span.pages }
        requires unused { IsUnused self.old.areas span }
        requires serials { self.old.next + 1 < 2 ^ 32 }
        ensures serial { IfOk result (λ serial. serial ≡ self.old.next) }
        ensures ok { OnOk result (self.new ≡ with_new caller ((span, kind) ∷ []) self.old) }
        ensures err { OnErr result (self.new ≡ self.old) }
    {
        let serial = self.next;
        let area = Area {
            span,
            kind,
            caller,
            serial,
        };
        put_area(&mut self.areas, area)?;
        self.next += 1;
        Ok(serial)
    }

    /// Puts live areas, which get the next serials in their order, all of them or none, as `pcpu_get_vm_areas` puts
    /// those of a chunk by `insert_vmap_area`. The first of the serials is the answer; where there is no area to put, it
    /// is that of the next. An error comes for want of memory only.
    pub fn insert_all(&mut self, areas: &[(Span, AreaKind)], caller: u16) -> Result<u32, AllocError>
        requires pages { All (λ (s : Span). 0 < s.pages) (asked_spans areas.now) }
        requires unused { (page : ℕ) → covers (asked_spans areas.now) page ≡ true
            → covers (spans_of self.old.areas) page ≡ false }
        requires disjoint { (page : ℕ) → times page (asked_spans areas.now) ≤ 1 }
        requires serials { self.old.next + length areas.now < 2 ^ 32 }
        ensures serial { IfOk result (λ serial. serial ≡ self.old.next) }
        ensures ok { OnOk result (self.new ≡ with_new caller areas.now self.old) }
        ensures err { OnErr result (self.new ≡ self.old) }
    {
        let first = self.next;
        put_all(&mut self.areas, areas, caller, first)?;
        self.next += areas.len() as u32;
        Ok(first)
    }

    /// Takes the area with this start and serial away, if there is one: `__find_vmap_area` and `unlink_va`, which go by
    /// the start alone. An area that was put later at the same start has another serial, and stays. It takes no memory.
    pub fn remove(&mut self, start: u32, serial: u32) -> Option<Area>
        ensures found { IfSome result (λ area.
            named_areas start serial self.old.areas ≡ area ∷ []) }
        ensures page { IfSome result (λ area. 1 ≤ area.span.pages) }
        ensures none { IfNone result (named_areas start serial self.old.areas ≡ []) }
        ensures gone { OnSome result (self.new
            ≡ record self.old { areas = without_area start serial self.old.areas }) }
        ensures unchanged { IfNone result (self.new ≡ self.old) }
    {
        match self.areas.get(&start) {
            Some(area) if area.serial == serial => self.areas.remove(&start),
            _ => None,
        }
    }

    /// Takes the areas with these starts away, whatever their serials, as `unlink_va` does. Where no area has a start,
    /// that start changes nothing. It takes no memory.
    pub fn unlink(&mut self, starts: &[u32])
        ensures others { self.new ≡ record self.old
            { areas = areas_elsewhere starts.now self.old.areas } }
    {
        for start in starts {
            self.areas.remove(start);
        }
    }

    /// The area that holds a page, as `find_vmap_area` gives it for an address. It takes no memory, and time for the
    /// depth of the tree.
    pub fn find(&self, page: u32) -> Option<Area>
        ensures kept { IfSome result (Contains self.now.areas) }
        ensures found { IfSome result (λ area. holds area.span page ≡ true) }
        ensures none { IsNone result ↔ (covers (spans_of self.now.areas) page ≡ false) }
    {
        let (_, area) = self.areas.range(..=page).next_back()?;
        if page - area.span.start < area.span.pages {
            Some(*area)
        } else {
            None
        }
    }

    /// How many areas are live. It takes no memory.
    pub fn len(&self) -> u32
        ensures count { result ≡ length self.now.areas }
    {
        self.areas.len() as u32
    }

    /// An area by its place among all by rising start, from 0. It takes time for all before it, and no memory.
    pub fn area_at(&self, index: u32) -> Area
        requires place { index < length self.now.areas }
        ensures area { slice_get self.now.areas index ≡ Some result }
    {
        match self.areas.values().nth(index as usize) {
            Some(area) => *area,
            None => unreachable!(),
        }
    }

    /// All areas by rising start, in one pass, as `/proc/vmallocinfo` lists them.
    pub fn areas(&self) -> Result<AreaList, AllocError>
        ensures all { IfOk result (λ areas. areas ≡ self.now.areas) }
    {
        Ok(AreaList::of(self.areas.values().copied().collect(self.alloc)?))
    }
}
