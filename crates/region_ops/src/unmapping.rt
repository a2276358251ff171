//! Unmapping a range (`zx_vmar_unmap`), and destroying a region (`zx_vmar_destroy`).

ghost use Rattle.std.specs.Prelude.{◌≡◌, ℕ, ◌+◌, ◌/◌, ◌≤◌, true, Option, OnOk, OnErr, None, Some, MatchResult};
ghost use Rattle.vm_base.specs.Pages.{rounded};
ghost use Rattle.vm_base.specs.declared.limits.TheConstants.{PAGE, ROOT_END};
ghost use Rattle.vm_model.specs.declared.space.Entry.{Entry};
ghost use Rattle.vm_model.specs.declared.space.Region.{Region};
ghost use Rattle.vm_model.specs.declared.reply.Reply.TheVariants as Reply;
ghost use Rattle.vm_model.specs.declared.command.Command.TheVariants as Command;
ghost use Rattle.vm_model.specs.Machine.Step.{reply_of};
ghost use Rattle.vm_model.specs.Space.Regions.{AreGoodRegions, killed};
ghost use Rattle.vm_model.specs.Space.Table.{with_pages};
ghost use Rattle.vm_model.specs.Space.Mappings.{is_mapped_in, lies_below_in};
ghost use Rattle.mapping_set.specs.Tables.{table_of, places_of};
ghost use Rattle.region_tree.specs.Tree.{regions_of, is_live_region, with_one_dead, spaces_of, AreNoted};
ghost use Rattle.region_ops.specs.Spaces.{AreWell, AreAllWell, LetsGo, Does, IsRefusalOf};

use crate::leaving::{clear_range, clear_region};
use crate::placing::live_region;
use crate::ranges::{PageRange, RegionRange, is_outside, pages_at};
use mapping_set::MappingSet;
use page_store::PageStore;
use region_tree::{Region, Regions};
use vm_base::{HostMemory, PageNo, Refusal, RegionName};
use vmo_table::VmoTable;

/// Unmaps a range of a live region (`zx_vmar_unmap`): `len` bytes, rounded up to whole pages, from an address on.
/// Regions below it that have no other pages are destroyed. A VMO that nothing keeps any more leaves. Refusals, in
/// their order:
///
/// - `InvalidArgs` if the address is not at a page, `len` is 0, the range passes an end of the region, or a live child
///   of the region has a page in the range and one outside;
/// - `HostMemory`, only if a page of the range is mapped.
pub fn unmap<P: PageStore>(
    store: &mut P,
    vmos: &mut VmoTable,
    regions: &mut Regions,
    maps: &mut MappingSet,
    region: RegionName,
    addr: u64,
    len: u64,
) -> Result<(), Refusal>
    requires live { is_live_region (regions_of regions.old) region.0 ≡ true }
    requires well { AreAllWell (P.content store.old) vmos.old (spaces_of (regions_of regions.old) (table_of maps.old)) }
    ensures { Does (P.content store.old) vmos.old (spaces_of (regions_of regions.old) (table_of maps.old))
        (Command.VmarUnmap region addr len) (reply_of (λ done. Reply.Done) result)
        (P.content store.new) vmos.new (spaces_of (regions_of regions.new) (table_of maps.new)) }
{
    let above = live_region(regions, region);
    let range = RegionRange { region, addr, len };
    unmap_in(store, vmos, regions, maps, above, range)
}

/// Does what `unmap` does, in the live region of the range, which is `above`. If the live children of each region are noted, they are
/// noted afterwards too.
pub fn unmap_in<P: PageStore>(
    store: &mut P,
    vmos: &mut VmoTable,
    regions: &mut Regions,
    maps: &mut MappingSet,
    above: Region,
    range: RegionRange,
) -> Result<(), Refusal>
    requires above { regions_of regions.old range.region.0 ≡ Some above }
    requires live { above.live ≡ true }
    requires end { above.first + above.count ≤ ROOT_END }
    requires well { AreAllWell (P.content store.old) vmos.old (spaces_of (regions_of regions.old) (table_of maps.old)) }
    ensures does { Does (P.content store.old) vmos.old (spaces_of (regions_of regions.old) (table_of maps.old))
        (Command.VmarUnmap range.region range.addr range.len) (reply_of (λ done. Reply.Done) result)
        (P.content store.new) vmos.new (spaces_of (regions_of regions.new) (table_of maps.new)) }
    ensures noted { AreNoted (regions_of regions.old) (places_of maps.old)
        → AreNoted (regions_of regions.new) (places_of maps.new) }
{
    let pages = match ask_to_unmap(regions, above, range) {
        Ok(pages) => pages,
        Err(refusal) => return Err(refusal),
    };
    let Ok(()) = clear_mapped(store, vmos, maps, above.root, pages.first, pages.count) else {
        return Err(Refusal::HostMemory);
    };
    destroy_within(regions, maps, range.region, pages.first, pages.count);
    Ok(())
}

/// Finds the pages of a range of a live region, which is `above`, that is to be unmapped. `InvalidArgs` as for `unmap`.
/// Nothing changes.
pub fn ask_to_unmap(
    regions: &Regions,
    above: Region,
    range: RegionRange,
) -> Result<PageRange, Refusal>
    requires above { regions_of regions.now range.region.0 ≡ Some above }
    requires live { above.live ≡ true }
    requires end { above.first + above.count ≤ ROOT_END }
    ensures { MatchResult result
        (λ pages. (pages ≡ record { first = range.addr / PAGE; count = rounded range.len / PAGE })
        × ((table : ℕ → ℕ → Option Entry)
        → IsRefusalOf (spaces_of (regions_of regions.now) table) (Command.VmarUnmap range.region range.addr range.len) None))
        (λ refusal. (table : ℕ → ℕ → Option Entry) → IsRefusalOf (spaces_of (regions_of regions.now) table)
        (Command.VmarUnmap range.region range.addr range.len) (Some refusal)) }
{
    if is_outside(above, range) {
        return Err(Refusal::InvalidArgs);
    }
    let pages = pages_at(range);
    if regions.cuts(range.region, pages.first, pages.count) {
        return Err(Refusal::InvalidArgs);
    }
    Ok(pages)
}

/// Destroys a live region and all below it, with their mappings (`zx_vmar_destroy`). A VMO that nothing keeps any more
/// leaves. The call never wants memory.
pub fn destroy<P: PageStore>(
    store: &mut P,
    vmos: &mut VmoTable,
    regions: &mut Regions,
    maps: &mut MappingSet,
    region: RegionName,
)
    requires live { is_live_region (regions_of regions.old) region.0 ≡ true }
    requires well { AreAllWell (P.content store.old) vmos.old (spaces_of (regions_of regions.old) (table_of maps.old)) }
    ensures { Does (P.content store.old) vmos.old (spaces_of (regions_of regions.old) (table_of maps.old))
        (Command.VmarDestroy region) Reply.Done
        (P.content store.new) vmos.new (spaces_of (regions_of regions.new) (table_of maps.new)) }
{
    let dying = live_region(regions, region);
    destroy_in(store, vmos, regions, maps, region, dying);
}

/// Does what `destroy` does, to a live region, which is `dying`. If the live children of each region are noted, they
/// are noted afterwards too: the notes of those that die are taken back.
pub fn destroy_in<P: PageStore>(
    store: &mut P,
    vmos: &mut VmoTable,
    regions: &mut Regions,
    maps: &mut MappingSet,
    region: RegionName,
    dying: Region,
)
    requires dying { regions_of regions.old region.0 ≡ Some dying }
    requires live { dying.live ≡ true }
    requires well { AreAllWell (P.content store.old) vmos.old (spaces_of (regions_of regions.old) (table_of maps.old)) }
    ensures does { Does (P.content store.old) vmos.old (spaces_of (regions_of regions.old) (table_of maps.old))
        (Command.VmarDestroy region) Reply.Done
        (P.content store.new) vmos.new (spaces_of (regions_of regions.new) (table_of maps.new)) }
    ensures noted { AreNoted (regions_of regions.old) (places_of maps.old)
        → AreNoted (regions_of regions.new) (places_of maps.new) }
{
    let mut from = region;
    while let Some(leaf) = regions.destroy_next_from(region, from, dying.first, dying.count) {
        clear_region(store, vmos, maps, dying.root, leaf.name);
        free_in_parent(maps, leaf.region);
        from = leaf.next;
    }
    regions.destroy_childless(region, dying);
    clear_region(store, vmos, maps, dying.root, region);
    free_in_parent(maps, dying);
}

/// Takes the entries of `count` pages from `first` on out of an address space. `HostMemory` if the host has too little
/// memory, and only if there is such an entry.
fn clear_mapped<P: PageStore>(
    store: &mut P,
    vmos: &mut VmoTable,
    maps: &mut MappingSet,
    root: RegionName,
    first: PageNo,
    count: u64,
) -> Result<(), HostMemory>
    requires well { AreWell (P.content store.old) vmos.old (table_of maps.old) }
    ensures cleared { OnOk result
        (table_of maps.new ≡ with_pages (table_of maps.old) root.0 first (first + count) (λ p. None)) }
    ensures gone { OnOk result (LetsGo (P.content store.old) vmos.old (table_of maps.old)
        (P.content store.new) vmos.new (table_of maps.new)) }
    ensures mapped { OnErr result (is_mapped_in (table_of maps.old root.0) first (first + count) ≡ true) }
    ensures store { OnErr result (P.content store.new ≡ P.content store.old) }
    ensures vmos { OnErr result (vmos.new ≡ vmos.old) }
    ensures table { OnErr result (table_of maps.new ≡ table_of maps.old) }
    ensures places { places_of maps.new ≡ places_of maps.old }
{
    if !is_mapped_in(maps, root, first, count) {
        return Ok(());
    }
    let Ok(()) = maps.reserve(2) else {
        return Err(HostMemory);
    };
    clear_range(store, vmos, maps, root, first, count);
    Ok(())
}

/// Returns whether one of `count` pages from `first` on of an address space has an entry.
pub fn is_mapped_in(maps: &MappingSet, root: RegionName, first: PageNo, count: u64) -> bool
    ensures { result ≡ is_mapped_in (table_of maps.now root.0) first (first + count) }
{
    match maps.next_piece(root, first) {
        Some(piece) => piece.first - first < count,
        None => false,
    }
}

/// Destroys all regions below a live one that have no page but of `count` pages from `first` on. A region without a
/// live child comes before its parent.
fn destroy_within(
    regions: &mut Regions,
    maps: &mut MappingSet,
    region: RegionName,
    first: PageNo,
    count: u64,
)
    requires good { AreGoodRegions (regions_of regions.old) }
    requires live { is_live_region (regions_of regions.old) region.0 ≡ true }
    ensures regions { regions_of regions.new ≡ killed (regions_of regions.old)
        (lies_below_in (regions_of regions.old) region.0 first (first + count)) }
    ensures table { table_of maps.new ≡ table_of maps.old }
    ensures noted { AreNoted (regions_of regions.old) (places_of maps.old)
        → AreNoted (regions_of regions.new) (places_of maps.new) }
{
    let mut from = region;
    while let Some(leaf) = regions.destroy_next_from(region, from, first, count) {
        free_in_parent(maps, leaf.region);
        from = leaf.next;
    }
}

/// Takes back that a region is noted in its parent, if it has one. `region` is what it was before it died.
fn free_in_parent(maps: &mut MappingSet, region: Region)
    ensures table { table_of maps.new ≡ table_of maps.old }
    ensures noted { (was now : ℕ → Option Region) (n : ℕ) → was n ≡ Some region → region.live ≡ true
        → now ≡ with_one_dead was n → AreNoted was (places_of maps.old) → AreNoted now (places_of maps.new) }
{
    let Some(parent) = region.parent else {
        return;
    };
    maps.free_place(region.root, parent, region.first);
}
