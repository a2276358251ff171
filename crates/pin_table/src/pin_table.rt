//! The table of pins.

ghost use Rattle.std.specs.Prelude.{◌≡◌, ℕ, ◌+◌, ◌≤◌, None, Some, IsSome, IfSome, IfNone, OnOk};
ghost use Rattle.std.specs.Option.{option_map};
ghost use Rattle.vm_base.specs.Search.{HasNone, IsFirst};
ghost use Rattle.vm_base.specs.Entries.{with_key, without_key};
ghost use Rattle.vm_model.specs.Naming.Pins.{any_pinned, is_pinned};
ghost use Rattle.pin_table.specs.Table.{pin_of, pins_of, pin_room};

use crate::pages::{pin_pages, unpin_pages};
use pair_map::PairMap;
use std::alloc::Global;
use std::collections::HashMap;
use std::marker::Model;
use vm_base::{HostMemory, Koid, PAGES_END, PIN_PAGES, PageNo, PinName};

/// A pin: `count` pages of a VMO, from page `first` on.
#[derive(Clone, Copy, Debug)]
struct Pin {
    koid: Koid,
    first: PageNo,
    count: u64,
}

/// The pins, each a name for up to `PIN_PAGES` pages of a VMO (pinned memory tokens). Pins may overlap: a page is
/// pinned as long as some pin covers it. No call but `reserve` asks the host for memory.
#[derive(Drop)]
pub struct PinTable {
    pins: HashMap<PinName, Pin>,
    /// The pages that are pinned, each with the number of pins that cover it.
    pages: PairMap<u64>,
}

impl Model for PinTable {
    ghost use Rattle.pin_table.specs.Table.{Pins};

    ghost Value = { Pins };

    ghost use Rattle.pin_table.specs.inside.TableFields.{pin_table_of, IsPinTable};

    ghost view = { pin_table_of };

    ghost invariant = { IsPinTable };
}

impl PinTable {
    /// Makes a table with no pin.
    pub fn new(alloc: Global) -> PinTable
        ensures { (n : ℕ) → pins_of result n ≡ None }
    {
        PinTable {
            pins: HashMap::new(alloc),
            pages: PairMap::new(alloc),
        }
    }

    /// Makes room for one pin more. `HostMemory` if the host has too little memory.
    pub fn reserve(&mut self) -> Result<(), HostMemory>
        ensures room { OnOk result (1 ≤ pin_room self.new) }
        ensures pins { pins_of self.new ≡ pins_of self.old }
    {
        let Ok(()) = self.pins.reserve(1) else {
            return Err(HostMemory);
        };
        let Ok(()) = self.pages.reserve(PIN_PAGES) else {
            return Err(HostMemory);
        };
        Ok(())
    }

    /// Adds a pin that is not there: `count` pages of a VMO, from 1 to `PIN_PAGES`, from the VMO's page `first` on.
    /// They end at or below page `PAGES_END`.
    pub fn add(&mut self, pin: PinName, koid: Koid, first: PageNo, count: u64)
        requires pin { pins_of self.old pin.0 ≡ None }
        requires few { (1 ≤ count) × (count ≤ PIN_PAGES) }
        requires pages { first + count ≤ PAGES_END }
        requires room { 1 ≤ pin_room self.old }
        ensures { pins_of self.new ≡ with_key (pins_of self.old) pin.0
            (record { koid = koid.0; first = first; count = count }) }
    {
        // The bound of the table's counts rests on the range of the names.
        prove!(pin.0 <= u32::MAX);
        // It succeeds, since there is room.
        let _added = self.pins.insert(pin, Pin { koid, first, count });
        pin_pages(&mut self.pages, koid, first, count);
    }

    /// Returns the VMO of a pin, its first page and its page count. `None` if and only if there is no such pin.
    pub fn get(&self, pin: PinName) -> Option<(Koid, PageNo, u64)>
        ensures { option_map pin_of result ≡ pins_of self.now pin.0 }
    {
        match self.pins.get(&pin) {
            Some(held) => Some((held.koid, held.first, held.count)),
            None => None,
        }
    }

    /// Takes out a pin that is there, and answers what `get` answered for it.
    pub fn remove(&mut self, pin: PinName) -> (Koid, PageNo, u64)
        requires { IsSome (pins_of self.old pin.0) }
        ensures pins { pins_of self.new ≡ without_key (pins_of self.old) pin.0 }
        ensures pin { Some (pin_of result) ≡ pins_of self.old pin.0 }
    {
        let held = self.pins[&pin];
        let _removed = self.pins.remove(&pin);
        unpin_pages(&mut self.pages, held.koid, held.first, held.count);
        (held.koid, held.first, held.count)
    }

    /// Returns the least pinned page of a VMO from `from` on. `None` if and only if there is none.
    pub fn next_pinned(&self, koid: Koid, from: PageNo) -> Option<PageNo>
        ensures some { IfSome result (λ page. IsFirst (is_pinned (pins_of self.now) koid.0) from (page + 1) page) }
        ensures none { IfNone result ((end : ℕ) → HasNone (is_pinned (pins_of self.now) koid.0) from end) }
    {
        match self.pages.next(koid.0, from) {
            Some((page, _)) => Some(page),
            None => None,
        }
    }

    /// Reports whether one of `count` pages of a VMO, from `first` on, is pinned. `first + count` may pass 2^64.
    pub fn pinned(&self, koid: Koid, first: PageNo, count: u64) -> bool
        ensures { result ≡ any_pinned (pins_of self.now) koid.0 first (first + count) }
    {
        match self.next_pinned(koid, first) {
            Some(page) => page - first < count,
            None => false,
        }
    }
}
