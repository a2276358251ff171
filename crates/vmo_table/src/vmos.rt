//! The VMOs of the table, each with how many names and children it has.

ghost use Rattle.std.specs.Prelude.{◌≡◌, ℕ, ◌+◌, ◌-◌, ◌<◌, ◌≤◌, ◌^◌, if◌then◌else◌, false, true, None, Some, IsSome};
ghost use Rattle.std.specs.Option.{option_map};
ghost use Rattle.vm_base.specs.Entries.{with_key};
ghost use Rattle.vm_base.specs.declared.limits.TheConstants.{NAMES};
ghost use Rattle.vm_model.specs.Naming.Names.{is_parent, child_count};
ghost use Rattle.vmo_table.specs.Vmos.{koid_number, vmos_in, lineages, kind_bit, more_names, fewer_names};
ghost use Rattle.vmo_table.specs.Vmos.{adopted, vmos_without, is_kept, vmos_settled, MayGet};
ghost use Rattle.vmo_table.specs.inside.ChildRows.{is_under, AreChildren, MayLeave};
ghost use Rattle.vmo_table.specs.declared.vmos.Vmo.{Vmo};

use crate::child_rows::{ChildRows, add_child, first_child, remove_child};
use std::collections::HashMap;
use vm_base::Koid;
use vm_model::{NameKind, Origin};

/// The record of a VMO beside its pages, with the numbers of its names and children.
#[derive(Clone, Copy, Debug)]
pub(crate) struct Vmo {
    pub resizable: bool,
    pub origin: Origin,
    pub parent: Option<Koid>,
    /// The number of names that stand for it.
    pub names: u64,
    /// The number of the names that are slices.
    pub slices: u64,
    /// The number of the names that are references.
    pub references: u64,
    /// The number of VMOs that have it as parent.
    pub children: u64,
    /// The number of pins and mapped pages that keep it.
    pub keepers: u128,
}

/// Returns 1 if two kinds are the same, else 0.
fn bit_of(kind: NameKind, other: NameKind) -> u64
    ensures { result ≡ kind_bit kind other }
{
    if kind == other { 1 } else { 0 }
}

impl Vmo {
    /// Returns the VMO with one name more of this kind.
    pub fn add_name(self, kind: NameKind) -> Vmo
        requires names { self.names ≤ NAMES }
        requires slices { self.slices ≤ NAMES }
        requires references { self.references ≤ NAMES }
        ensures { result ≡ more_names kind self }
    {
        Vmo {
            names: self.names + 1,
            slices: self.slices + bit_of(NameKind::Slice, kind),
            references: self.references + bit_of(NameKind::Reference, kind),
            ..self
        }
    }

    /// Returns the VMO with one name less of this kind.
    pub fn take_name(self, kind: NameKind) -> Vmo
        requires names { 1 ≤ self.names }
        requires slices { kind_bit NameKind.Slice kind ≤ self.slices }
        requires references { kind_bit NameKind.Reference kind ≤ self.references }
        ensures { result ≡ fewer_names kind self }
    {
        Vmo {
            names: self.names - 1,
            slices: self.slices - bit_of(NameKind::Slice, kind),
            references: self.references - bit_of(NameKind::Reference, kind),
            ..self
        }
    }

    /// Reports whether a name or a keeper keeps the VMO.
    fn is_kept(self) -> bool
        ensures { result ≡ is_kept self }
    {
        self.names > 0 || self.keepers > 0
    }
}

/// Writes another value to a VMO of the table.
pub(crate) fn write_back(vmos: &mut HashMap<Koid, Vmo>, koid: Koid, vmo: Vmo)
    requires { (old : Vmo) × (vmos_in vmos.old.entries koid.0 ≡ Some old) }
    ensures { vmos_in vmos.new.entries ≡ with_key (vmos_in vmos.old.entries) koid.0 vmo }
{
    if let Some(kept) = vmos.get_mut(&koid) {
        *kept = vmo;
    }
}

/// Counts the children of a VMO that leave it, and those that come to it. Without a VMO nothing changes.
pub(crate) fn count_children(
    vmos: &mut HashMap<Koid, Vmo>,
    parent: Option<Koid>,
    gone: u64,
    come: u64,
)
    requires { (v : ℕ) (vmo : Vmo) → is_parent v (option_map koid_number parent) ≡ true →
        vmos_in vmos.old.entries v ≡ Some vmo → (gone ≤ vmo.children) × (vmo.children - gone + come < 2 ^ 64) }
    ensures { vmos_in vmos.new.entries ≡ adopted (vmos_in vmos.old.entries) (option_map koid_number parent) gone come }
{
    let Some(koid) = parent else {
        return;
    };
    if let Some(vmo) = vmos.get_mut(&koid) {
        vmo.children = vmo.children - gone + come;
    }
}

/// Gives each child of a VMO that leaves the parent of that VMO, one after another.
fn move_children(
    vmos: &mut HashMap<Koid, Vmo>,
    rows: &mut ChildRows,
    koid: Koid,
    parent: Option<Koid>,
)
    requires { MayLeave (vmos_in vmos.old.entries) rows.old koid.0 parent }
    ensures leaves { MayLeave (vmos_in vmos.new.entries) rows.new koid.0 parent }
    ensures childless { (v : ℕ) → is_under rows.new koid.0 v ≡ false }
    ensures same { vmos_without (vmos_in vmos.new.entries) koid.0 parent
        ≡ vmos_without (vmos_in vmos.old.entries) koid.0 parent }
{
    while let Some(child) = first_child(rows, koid) {
        move_child(vmos, rows, koid, child, parent);
    }
}

/// Gives a child of a VMO that leaves the parent of that VMO.
fn move_child(
    vmos: &mut HashMap<Koid, Vmo>,
    rows: &mut ChildRows,
    koid: Koid,
    child: Koid,
    parent: Option<Koid>,
)
    requires leaves { MayLeave (vmos_in vmos.old.entries) rows.old koid.0 parent }
    requires child { is_under rows.old koid.0 child.0 ≡ true }
    ensures leaves { MayLeave (vmos_in vmos.new.entries) rows.new koid.0 parent }
    ensures same { vmos_without (vmos_in vmos.new.entries) koid.0 parent
        ≡ vmos_without (vmos_in vmos.old.entries) koid.0 parent }
    ensures fewer { child_count (lineages (vmos_in vmos.new.entries)) koid.0
        < child_count (lineages (vmos_in vmos.old.entries)) koid.0 }
{
    remove_child(rows, Some(koid), child);
    add_child(rows, parent, child);
    set_parent(vmos, child, parent);
}

/// Writes the parent of a VMO of the table.
fn set_parent(vmos: &mut HashMap<Koid, Vmo>, koid: Koid, parent: Option<Koid>)
    requires { IsSome (vmos_in vmos.old.entries koid.0) }
    ensures { (vmo : Vmo) → vmos_in vmos.old.entries koid.0 ≡ Some vmo →
        vmos_in vmos.new.entries ≡ with_key (vmos_in vmos.old.entries) koid.0 (record vmo { parent = parent }) }
{
    if let Some(vmo) = vmos.get_mut(&koid) {
        vmo.parent = parent;
    }
}

/// Takes a VMO out. Its children get its parent.
fn take_out(vmos: &mut HashMap<Koid, Vmo>, rows: &mut ChildRows, koid: Koid, parent: Option<Koid>)
    requires { MayLeave (vmos_in vmos.old.entries) rows.old koid.0 parent }
    ensures vmos { vmos_in vmos.new.entries ≡ vmos_without (vmos_in vmos.old.entries) koid.0 parent }
    ensures rows { AreChildren rows.new (lineages (vmos_in vmos.new.entries)) }
{
    move_children(vmos, rows, koid, parent);
    remove_child(rows, parent, koid);
    let _removed = vmos.remove(&koid);
}

/// Writes another value to a VMO of the table, if a name or a keeper still keeps it. Otherwise the VMO leaves, its
/// children get its parent, and its koid is the answer.
pub(crate) fn settle(
    vmos: &mut HashMap<Koid, Vmo>,
    rows: &mut ChildRows,
    koid: Koid,
    vmo: Vmo,
) -> Option<Koid>
    requires may { MayGet (vmos_in vmos.old.entries) koid.0 vmo }
    requires rows { AreChildren rows.old (lineages (vmos_in vmos.old.entries)) }
    ensures vmos { vmos_in vmos.new.entries ≡ vmos_settled (vmos_in vmos.old.entries) koid.0 vmo }
    ensures rows { AreChildren rows.new (lineages (vmos_in vmos.new.entries)) }
    ensures answer { result ≡ (if is_kept vmo then None else Some koid) }
{
    if vmo.is_kept() {
        write_back(vmos, koid, vmo);
        return None;
    }
    // A VMO has no more children than the map has VMOs.
    prove!(vmos.len() < usize::MAX);
    take_out(vmos, rows, koid, vmo.parent);
    count_children(vmos, vmo.parent, 1, vmo.children);
    Some(koid)
}
