//! The names of VMOs, and what the pages of each VMO come from.

ghost use Rattle.std.specs.Prelude.{◌≡◌, ◌≤◌, false, not, None, Some, OnOk, is_some, option_map};
ghost use Rattle.vm_base.specs.Entries.{with_key, without_key};
ghost use Rattle.vm_base.specs.declared.names.Koid.{Koid};
ghost use Rattle.pair_map.specs.Maps.{spare_of};
ghost use Rattle.source_model.specs.declared.link.Link.{Link};
ghost use Rattle.source_vm.specs.Table.{source_names_of, owners_of, backings_of, loose_links_of, children_of, HasRoom, IsIndexed, IsKeptBy};

use pair_map::PairMap;
use source_model::{Backing, Link};
use std::alloc::Global;
use vm_base::{HostMemory, Koid, VmoName};

/// The VMO of each open name, and of each VMO the name, the origin of its pages and its loose children. All maps but that of
/// the children have one list, 0. No function but `reserve` asks the host for memory.
#[derive(Drop)]
pub(crate) struct SourceTable {
    pub(crate) names: PairMap<Koid>,
    pub(crate) owners: PairMap<VmoName>,
    pub(crate) backings: PairMap<Backing>,
    pub(crate) links: PairMap<Link>,
    /// A pair for each loose child: its parent, and the child.
    pub(crate) children: PairMap<()>,
}

/// Makes a table with no name and no VMO.
pub(crate) fn new_table(alloc: Global) -> SourceTable
    ensures names { source_names_of result ≡ λ n. None }
    ensures owners { owners_of result ≡ λ v. None }
    ensures backings { backings_of result ≡ λ v. None }
    ensures links { loose_links_of result ≡ λ v. None }
    ensures children { children_of result ≡ λ p w. false }
{
    SourceTable {
        names: PairMap::new(alloc),
        owners: PairMap::new(alloc),
        backings: PairMap::new(alloc),
        links: PairMap::new(alloc),
        children: PairMap::new(alloc),
    }
}

/// Returns the VMO of a name. `None` if and only if it is not open.
pub(crate) fn find(table: &SourceTable, name: VmoName) -> Option<Koid>
    ensures { source_names_of table.now name.0 ≡ option_map (λ (v : Koid). v.0) result }
{
    table.names.find(0, name.0 as u64)
}

/// Returns whether a VMO has a name, or a loose child.
pub(crate) fn is_kept(table: &SourceTable, v: Koid) -> bool
    ensures { IsKeptBy (owners_of table.now) (children_of table.now) v.0 result }
{
    table.owners.find(0, v.0).is_some() || table.children.next(v.0, 0).is_some()
}

/// Makes room for one name and one VMO more. `HostMemory` where the host has too little memory.
pub(crate) fn reserve(table: &mut SourceTable) -> Result<(), HostMemory>
    ensures room { OnOk result (HasRoom table.new) }
    ensures names { source_names_of table.new ≡ source_names_of table.old }
    ensures owners { owners_of table.new ≡ owners_of table.old }
    ensures backings { backings_of table.new ≡ backings_of table.old }
    ensures links { loose_links_of table.new ≡ loose_links_of table.old }
    ensures children { children_of table.new ≡ children_of table.old }
{
    let Ok(()) = table.names.reserve(1) else {
        return Err(HostMemory);
    };
    let Ok(()) = table.owners.reserve(1) else {
        return Err(HostMemory);
    };
    let Ok(()) = table.backings.reserve(1) else {
        return Err(HostMemory);
    };
    let Ok(()) = table.links.reserve(1) else {
        return Err(HostMemory);
    };
    let Ok(()) = table.children.reserve(1) else {
        return Err(HostMemory);
    };
    Ok(())
}

/// Lets a name that is not open stand for a VMO that has no name, where there is room.
pub(crate) fn enter_name(table: &mut SourceTable, name: VmoName, v: Koid)
    requires closed { source_names_of table.old name.0 ≡ None }
    requires unnamed { owners_of table.old v.0 ≡ None }
    requires room { HasRoom table.old }
    requires indexed { IsIndexed table.old }
    ensures names { source_names_of table.new ≡ with_key (source_names_of table.old) name.0 v.0 }
    ensures backings { backings_of table.new ≡ backings_of table.old }
    ensures links { loose_links_of table.new ≡ loose_links_of table.old }
    ensures children { children_of table.new ≡ children_of table.old }
    ensures room { (1 ≤ spare_of table.new.backings) × (1 ≤ spare_of table.new.links) × (1 ≤ spare_of table.new.children) }
    ensures indexed { IsIndexed table.new }
{
    table.names.insert(0, name.0 as u64, v);
    table.owners.insert(0, v.0, name);
}

/// Notes where the pages of a VMO come from, where there is room.
pub(crate) fn enter_backing(table: &mut SourceTable, v: Koid, backing: Backing)
    requires other { backings_of table.old v.0 ≡ None }
    requires room { 1 ≤ spare_of table.old.backings }
    requires indexed { IsIndexed table.old }
    ensures names { source_names_of table.new ≡ source_names_of table.old }
    ensures backings { backings_of table.new ≡ with_key (backings_of table.old) v.0 backing }
    ensures links { loose_links_of table.new ≡ loose_links_of table.old }
    ensures indexed { IsIndexed table.new }
{
    table.backings.insert(0, v.0, backing);
}

/// Notes that a VMO is a loose child, where there is room.
pub(crate) fn enter_link(table: &mut SourceTable, v: Koid, link: Link)
    requires other { loose_links_of table.old v.0 ≡ None }
    requires childless { children_of table.old link.parent.0 v.0 ≡ false }
    requires room { (1 ≤ spare_of table.old.links) × (1 ≤ spare_of table.old.children) }
    requires indexed { IsIndexed table.old }
    ensures names { source_names_of table.new ≡ source_names_of table.old }
    ensures backings { backings_of table.new ≡ backings_of table.old }
    ensures links { loose_links_of table.new ≡ with_key (loose_links_of table.old) v.0 link }
    ensures indexed { IsIndexed table.new }
{
    table.links.insert(0, v.0, link);
    table.children.insert(link.parent.0, v.0, ());
}

/// Closes the name of a VMO.
pub(crate) fn leave_name(table: &mut SourceTable, name: VmoName, v: Koid)
    requires open { source_names_of table.old name.0 ≡ Some v.0 }
    requires indexed { IsIndexed table.old }
    ensures names { source_names_of table.new ≡ without_key (source_names_of table.old) name.0 }
    ensures backings { backings_of table.new ≡ backings_of table.old }
    ensures links { loose_links_of table.new ≡ loose_links_of table.old }
    ensures indexed { IsIndexed table.new }
{
    table.names.remove(0, name.0 as u64);
    table.owners.remove(0, v.0);
}

/// Takes out a VMO with no name, which has a backing or a link. The parent where it has a link.
pub(crate) fn leave(table: &mut SourceTable, v: Koid) -> Option<Koid>
    requires either { is_some (backings_of table.old v.0) ≡ not (is_some (loose_links_of table.old v.0)) }
    requires indexed { IsIndexed table.old }
    ensures names { source_names_of table.new ≡ source_names_of table.old }
    ensures backings { backings_of table.new ≡ without_key (backings_of table.old) v.0 }
    ensures links { loose_links_of table.new ≡ without_key (loose_links_of table.old) v.0 }
    ensures indexed { IsIndexed table.new }
    ensures parent { result ≡ option_map (λ (l : Link). l.parent) (loose_links_of table.old v.0) }
{
    match table.links.find(0, v.0) {
        Some(link) => {
            table.links.remove(0, v.0);
            table.children.remove(link.parent.0, v.0);
            Some(link.parent)
        }
        None => {
            table.backings.remove(0, v.0);
            None
        }
    }
}
