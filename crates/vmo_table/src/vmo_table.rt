//! The table of names and VMOs.

ghost use Rattle.std.specs.Prelude.{◌≡◌, ◌≢◌, ℕ, ◌+◌, ◌^◌, ◌<◌, ◌≤◌, ◌==◌, if◌then◌else◌, None, IsSome, IfSome, OnOk};
ghost use Rattle.std.specs.Option.{option_map};
ghost use Rattle.vm_base.specs.Entries.{with_key, without_key};
ghost use Rattle.vm_model.specs.Naming.Names.{owner, children, may_decommit};
ghost use Rattle.vmo_table.specs.Vmos.{koid_number};
ghost use Rattle.vmo_table.specs.Table.{names_of, lineage_in, keepers_of, vmo_room, Settles, Closes};

use crate::child_rows::{ChildRows, add_child};
use crate::vmos::{Vmo, count_children, settle, write_back};
use balanced_tree::BalancedTree;
use std::alloc::Global;
use std::collections::HashMap;
use std::marker::Model;
use vm_base::{HostMemory, Koid, VmoName};
use vm_model::{NameKind, Origin, Target};

/// The names of VMOs, and what is kept of each VMO. No call but `reserve` asks the host for memory.
#[derive(Drop)]
pub struct VmoTable {
    names: HashMap<VmoName, Target>,
    vmos: HashMap<Koid, Vmo>,
    child_rows: ChildRows,
}

impl Model for VmoTable {
    ghost use Rattle.vmo_table.specs.Table.{Vmos};

    ghost Value = { Vmos };

    ghost use Rattle.vmo_table.specs.inside.TableFields.{vmo_table_of, IsVmoTable};

    ghost view = { vmo_table_of };

    ghost invariant = { IsVmoTable };
}

impl VmoTable {
    /// Makes a table with no name and no VMO.
    pub fn new(alloc: Global) -> VmoTable
        ensures names { (name : ℕ) → names_of result name ≡ None }
        ensures lineage { (v : ℕ) → lineage_in result v ≡ None }
        ensures keepers { (v : ℕ) → keepers_of result v ≡ 0 }
    {
        VmoTable {
            names: HashMap::new(alloc),
            vmos: HashMap::new(alloc),
            child_rows: BalancedTree::new(alloc),
        }
    }

    /// Makes room for one name and one VMO more. `HostMemory` if the host has too little memory.
    pub fn reserve(&mut self) -> Result<(), HostMemory>
        ensures room { OnOk result (1 ≤ vmo_room self.new) }
        ensures names { names_of self.new ≡ names_of self.old }
        ensures lineage { lineage_in self.new ≡ lineage_in self.old }
        ensures keepers { keepers_of self.new ≡ keepers_of self.old }
    {
        let Ok(()) = self.names.reserve(1) else {
            return Err(HostMemory);
        };
        let Ok(()) = self.vmos.reserve(1) else {
            return Err(HostMemory);
        };
        let Ok(()) = self.child_rows.reserve(1) else {
            return Err(HostMemory);
        };
        Ok(())
    }

    /// Enters a VMO under a new koid, and a name that is not open and stands for all of the VMO. The name may resize
    /// the VMO if and only if the VMO is resizable. If the VMO has a parent, the parent is in the table.
    pub fn enter(
        &mut self,
        name: VmoName,
        koid: Koid,
        resizable: bool,
        origin: Origin,
        parent: Option<Koid>,
        may_write: bool,
    )
        requires name { names_of self.old name.0 ≡ None }
        requires koid { lineage_in self.old koid.0 ≡ None }
        requires parent { IfSome parent (λ p. IsSome (lineage_in self.old p.0)) }
        requires room { 1 ≤ vmo_room self.old }
        ensures names { names_of self.new ≡ with_key (names_of self.old) name.0 (owner koid.0 may_write resizable) }
        ensures lineage { lineage_in self.new ≡ with_key (lineage_in self.old) koid.0
            (record { resizable = resizable; origin = origin; parent = option_map koid_number parent }) }
        ensures keepers { keepers_of self.new ≡ keepers_of self.old }
    {
        // The bounds of the table's counts rest on the ranges of names and koids, and on how many VMOs a map holds.
        prove!(name.0 <= u32::MAX);
        prove!(koid.0 <= u64::MAX);
        prove!(self.vmos.len() < usize::MAX);
        let vmo = Vmo {
            resizable,
            origin,
            parent,
            names: 1,
            slices: 0,
            references: 0,
            children: 0,
            keepers: 0,
        };
        let target = Target {
            koid,
            first: 0,
            limit: None,
            kind: NameKind::Owner,
            may_write,
            may_resize: resizable,
        };
        // Both succeed, since there is room.
        let _named = self.names.insert(name, target);
        let _kept = self.vmos.insert(koid, vmo);
        add_child(&mut self.child_rows, parent, koid);
        count_children(&mut self.vmos, parent, 0, 1);
    }

    /// Lets a name that is not open stand for a VMO of the table, beside the VMO's other names: for a part of it (a
    /// slice), or for all of it (a reference).
    pub fn alias(&mut self, name: VmoName, target: Target)
        requires name { names_of self.old name.0 ≡ None }
        requires koid { IsSome (lineage_in self.old target.koid.0) }
        requires kind { target.kind ≢ NameKind.Owner }
        requires room { 1 ≤ vmo_room self.old }
        ensures names { names_of self.new ≡ with_key (names_of self.old) name.0 target }
        ensures lineage { lineage_in self.new ≡ lineage_in self.old }
        ensures keepers { keepers_of self.new ≡ keepers_of self.old }
    {
        prove!(name.0 <= u32::MAX);
        let vmo = self.vmos[&target.koid];
        write_back(&mut self.vmos, target.koid, vmo.add_name(target.kind));
        // It succeeds, since there is room.
        let _named = self.names.insert(name, target);
    }

    /// Returns what a name stands for. `None` if and only if the name is not open.
    pub fn resolve(&self, name: VmoName) -> Option<Target>
        ensures { result ≡ names_of self.now name.0 }
    {
        self.names.get(&name).copied()
    }

    /// Closes a name that is open (`zx_handle_close`). If nothing keeps its VMO then, the VMO leaves the table, its
    /// children get its parent, and its koid is the answer. Otherwise the answer is `None`.
    pub fn close(&mut self, name: VmoName) -> Option<Koid>
        requires { IsSome (names_of self.old name.0) }
        ensures names { names_of self.new ≡ without_key (names_of self.old) name.0 }
        ensures keepers { keepers_of self.new ≡ keepers_of self.old }
        ensures vmo { Closes (names_of self.old) (names_of self.new) (keepers_of self.old)
            (lineage_in self.old) (lineage_in self.new) name.0 result }
    {
        let Some(target) = self.names.remove(&name) else {
            unreachable!()
        };
        let left = self.vmos[&target.koid].take_name(target.kind);
        settle(&mut self.vmos, &mut self.child_rows, target.koid, left)
    }

    /// Adds `n` keepers to a VMO of the table: pins, or pages that are mapped.
    pub fn keep(&mut self, koid: Koid, n: u64)
        requires koid { IsSome (lineage_in self.old koid.0) }
        requires few { keepers_of self.old koid.0 + n < 2 ^ 128 }
        ensures names { names_of self.new ≡ names_of self.old }
        ensures lineage { lineage_in self.new ≡ lineage_in self.old }
        ensures keepers { (v : ℕ) → keepers_of self.new v ≡ keepers_of self.old v + (if v == koid.0 then n else 0) }
    {
        let vmo = self.vmos[&koid];
        let kept = Vmo {
            keepers: vmo.keepers + u128::from(n),
            ..vmo
        };
        write_back(&mut self.vmos, koid, kept);
    }

    /// Takes `n` keepers of a VMO away. If nothing keeps the VMO then, it leaves the table, its children get its
    /// parent, and its koid is the answer. A VMO that is not in the table has its koid as the answer too. Otherwise the
    /// answer is `None`.
    pub fn release(&mut self, koid: Koid, n: u64) -> Option<Koid>
        requires keepers { n ≤ keepers_of self.old koid.0 }
        ensures names { names_of self.new ≡ names_of self.old }
        ensures keepers { (v : ℕ) → keepers_of self.new v + (if v == koid.0 then n else 0) ≡ keepers_of self.old v }
        ensures vmo { Settles (names_of self.old) (keepers_of self.new koid.0) koid.0
            (lineage_in self.old) (lineage_in self.new) result }
    {
        let Some(vmo) = self.vmos.get(&koid).copied() else {
            return Some(koid);
        };
        let left = Vmo {
            keepers: vmo.keepers - u128::from(n),
            ..vmo
        };
        settle(&mut self.vmos, &mut self.child_rows, koid, left)
    }

    /// Reports whether a VMO of the table may change its size.
    pub fn resizable(&self, koid: Koid) -> bool
        requires { IsSome (lineage_in self.now koid.0) }
        ensures { IfSome (lineage_in self.now koid.0) (λ l. result ≡ l.resizable) }
    {
        self.vmos[&koid].resizable
    }

    /// Returns how many children a VMO of the table has: the VMOs whose parent it is, and the slices and references
    /// that stand for it.
    pub fn children(&self, koid: Koid) -> u64
        requires { IsSome (lineage_in self.now koid.0) }
        ensures { result ≡ children (names_of self.now) (lineage_in self.now) koid.0 }
    {
        // The sum fits, since a map holds fewer than 2^63 VMOs.
        prove!(self.vmos.len() <= usize::MAX / 2);
        let vmo = self.vmos[&koid];
        vmo.children + vmo.slices + vmo.references
    }

    /// Reports whether the frames of a VMO of the table may be given back by a decommit: the VMO is no snapshot, no VMO
    /// is its child, and no reference stands for it.
    pub fn may_decommit(&self, koid: Koid) -> bool
        requires { IsSome (lineage_in self.now koid.0) }
        ensures { IfSome (lineage_in self.now koid.0) (λ l.
            result ≡ may_decommit (names_of self.now) (lineage_in self.now) koid.0 l) }
    {
        let vmo = self.vmos[&koid];
        match vmo.origin {
            Origin::Created => vmo.children == 0 && vmo.references == 0,
            Origin::Snapshot => false,
        }
    }
}
