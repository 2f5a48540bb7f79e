//! The names of a section, and the calls that they stand for.
ghost use Rattle.std.specs.Prelude.{◌≡◌, ◌≤◌, ◌||◌, not, List, ℕ, Some, None, is_some, length, IfOk, OnOk, IsTrue, if◌then◌else◌};
ghost use Rattle.std.specs.Str.{bytes_eq};
ghost use Rattle.vm_model.specs.Words.{is_letter, is_digit, is_name};
ghost use Rattle.trace_text.specs.Names.{symbol, number_of, slot_of, place_of};
ghost use Rattle.trace_text.specs.HeldLines.{call_at};

use crate::fields::is_letter;
use std::alloc::{AllocError, Global};
use std::collections::BTreeMap;
use std::marker::Model;
use vm_model::Call;

/// 2 ^ 64 by the golden ratio: a product with it spreads numbers that are near each other.
const SPREAD: u64 = 11_400_714_819_323_198_485;

/// The number of a name, with the place of its call.
#[derive(Clone, Copy)]
pub struct Kept {
    pub number: u64,
    pub place: usize,
}

/// The names of a section, each with the place of its call there, from 0. A name is kept as a number, in the slot that its
/// number gives. Names whose slot another one has taken are kept in an ordered map. So a look-up takes one step for most
/// names, and for no names that a trace may choose more than the logarithm of how many there are.
#[derive(Drop)]
pub struct Names {
    alloc: Global,
    wanted: usize,
    slots: Vec<Option<Kept>>,
    rest: BTreeMap<u64, usize>,
}

impl Model for Names {
    ghost use Rattle.trace_text.specs.Names.{NameTable, IsTable};

    ghost Value = { NameTable };

    ghost view = { λ n. record { slots = n.slots.items; rest = n.rest.entries } };

    ghost invariant = { λ n. IsTable (record { slots = n.slots.items; rest = n.rest.entries }) };
}

/// The digit to base 37 that stands for a letter or a digit of a name.
fn symbol(byte: u8) -> u64
    requires { IsTrue (is_letter byte || is_digit byte) }
    ensures { result ≡ symbol byte }
{
    if is_letter(byte) {
        u64::from(byte - b'a') + 1
    } else {
        u64::from(byte - b'0') + 27
    }
}

/// A name as a number to base 37, its first letter the lowest digit.
fn number_of(name: &[u8]) -> u64
    requires { IsTrue (is_name name.now) }
    ensures { result ≡ number_of name.now }
{
    let mut number: u64 = 0;
    let mut left = name.len();
    while left > 0 {
        left -= 1;
        number = number * 37 + symbol(name[left]);
    }
    number
}

/// The slot of a number among so many.
fn slot_of(slots: usize, number: u64) -> usize
    ensures { result ≡ slot_of slots number }
{
    (number.wrapping_mul(SPREAD) >> 32) as usize % slots.max(1)
}

impl Names {
    /// No names. The first that comes makes so many slots.
    pub fn new(alloc: Global, wanted: usize) -> Names
        ensures { (name : List ℕ) → place_of result name ≡ None }
    {
        Names {
            alloc,
            wanted,
            slots: Vec::new(alloc),
            rest: BTreeMap::new(alloc),
        }
    }

    /// How many slots it has or will have.
    pub fn wanted(&self) -> usize {
        self.wanted
    }

    /// Forgets all names.
    pub fn clear(&mut self)
        ensures { (name : List ℕ) → place_of self.new name ≡ None }
    {
        self.slots.clear();
        self.rest.clear();
    }

    /// Makes the slots, where there are none.
    fn make_slots(&mut self) -> Result<(), AllocError>
        ensures some { OnOk result (1 ≤ length self.new.slots) }
        ensures same { OnOk result ((name : List ℕ)
            → place_of self.new name ≡ place_of self.old name) }
    {
        if self.slots.is_empty() {
            self.slots = vec![in self.alloc; None; self.wanted.max(1)]?;
        }
        Ok(())
    }

    /// The place of a name's call.
    pub fn find(&self, name: &[u8]) -> Option<usize>
        requires { IsTrue (is_name name.now) }
        ensures { result ≡ place_of self.now name.now }
    {
        let number = number_of(name);
        let kept = self.slots.get(slot_of(self.slots.len(), number)).copied()??;
        if kept.number == number {
            return Some(kept.place);
        }
        self.rest.get(&number).copied()
    }

    /// Puts a name with the place of its call, and tells whether the name is new.
    pub fn insert(&mut self, name: &[u8], place: usize) -> Result<bool, AllocError>
        requires { IsTrue (is_name name.now) }
        ensures new { IfOk result (λ new. new ≡ not (is_some (place_of self.old name.now))) }
        ensures put { IfOk result (λ new. IsTrue new → (other : List ℕ)
            → place_of self.new other ≡ (if bytes_eq name.now other then Some place
            else place_of self.old other)) }
    {
        self.make_slots()?;
        let number = number_of(name);
        let slot = slot_of(self.slots.len(), number);
        let Some(kept) = self.slots[slot] else {
            self.slots[slot] = Some(Kept { number, place });
            return Ok(true);
        };
        if kept.number == number {
            return Ok(false);
        }
        Ok(self.rest.insert(number, place)?.is_none())
    }
}

/// The call that a name of a section stands for, with its number there.
#[inline(always)]
pub fn named_call(names: &Names, calls: &[Call], name: &[u8]) -> Option<(usize, Call)>
    requires { IsTrue (is_name name.now) }
    ensures { result ≡ call_at calls.now (place_of names.now name.now) }
{
    let place = names.find(name)?;
    let call = calls.get(place)?;
    Some((place + 1, *call))
}
