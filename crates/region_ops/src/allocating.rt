//! Allocating a region in another (`zx_vmar_allocate`).

ghost use Rattle.std.specs.Prelude.{◌≡◌, ◌+◌, ◌/◌, ◌≤◌, true, None, Some, MatchResult};
ghost use Rattle.vm_base.specs.Entries.{with_key};
ghost use Rattle.vm_base.specs.Pages.{rounded};
ghost use Rattle.vm_base.specs.declared.limits.TheConstants.{PAGE, ROOT_END};
ghost use Rattle.vm_base.specs.declared.names.RegionName.{RegionName};
ghost use Rattle.vm_model.specs.declared.reply.Reply.TheVariants as Reply;
ghost use Rattle.vm_model.specs.declared.command.Command.TheVariants as Command;
ghost use Rattle.vm_model.specs.Machine.State.{State};
ghost use Rattle.vm_model.specs.Machine.Step.{Step, reply_of};
ghost use Rattle.vm_model.specs.Space.Places.{IsPlace, is_free};
ghost use Rattle.vm_model.specs.Space.Regions.{region_of, region_below, AreGoodRegions};
ghost use Rattle.vm_model.specs.Space.Rights.{has, specific, upper_limit};
ghost use Rattle.mapping_set.specs.Tables.{table_of, places_of};
ghost use Rattle.region_tree.specs.Tree.{regions_of, is_live_region, spaces_of, AreNoted};
ghost use Rattle.region_ops.specs.Spaces.{with_spaces, IsRefusalOfNew};

use crate::placing::{SearchedRegion, Wanted, allows, find_place, is_misplaced, live_region};
use mapping_set::MappingSet;
use region_tree::{Region, Regions};
use vm_base::{HostMemory, MapFlags, PAGE, PageNo, Perm, Refusal, RegionName, page_count};

/// A region that is asked for in another: `len` bytes, rounded up to whole pages, with these permissions at most.
#[derive(Clone, Copy, Debug)]
pub struct AllocateRequest {
    pub parent: RegionName,
    /// In bytes from the start of the parent.
    pub offset: u64,
    pub len: u64,
    pub flags: MapFlags,
    pub caps: Perm,
}

/// Allocates a region of `len` bytes, rounded up to whole pages, in a live region (`zx_vmar_allocate`), and answers its
/// address. The new name was never given. `offset` is in bytes from the start of the parent: the region begins there
/// with `SPECIFIC`, and ends at or below it with `UPPER_LIMIT`. With neither, `offset` is 0, and any place will do.
/// Refusals, in their order:
///
/// - `AccessDenied` if the parent does not allow what is asked for in `caps`;
/// - `InvalidArgs` if the offset is not at a page, `len` is 0, both options are given, an offset is given with neither,
///   or a place at the offset passes the parent's end;
/// - `AlreadyExists` if the place at the offset is not free;
/// - `NoResources` if no free place fits;
/// - `HostMemory`.
pub fn allocate(
    regions: &mut Regions,
    maps: &MappingSet,
    name: RegionName,
    parent: RegionName,
    offset: u64,
    len: u64,
    flags: MapFlags,
    caps: Perm,
) -> Result<u64, Refusal>
    requires name { regions_of regions.old name.0 ≡ None }
    requires live { is_live_region (regions_of regions.old) parent.0 ≡ true }
    ensures { (s : State) → Step (with_spaces s (spaces_of (regions_of regions.old) (table_of maps.now)))
        (Command.VmarAllocate name parent offset len flags caps) (reply_of (λ address. Reply.Address address) result)
        (with_spaces s (spaces_of (regions_of regions.new) (table_of maps.now))) }
{
    let above = live_region(regions, parent);
    let searched = SearchedRegion {
        region: above,
        noted: false,
    };
    let request = AllocateRequest {
        parent,
        offset,
        len,
        flags,
        caps,
    };
    let first = match ask_to_allocate(regions, maps, searched, request) {
        Ok(first) => first,
        Err(refusal) => return Err(refusal),
    };
    match regions.allocate_below(name, parent, above, first, page_count(len), caps) {
        Ok(()) => Ok(first * PAGE),
        Err(_) => Err(Refusal::HostMemory),
    }
}

/// Finds the first page of a place for a region in the live one that is asked for. Refusals as for `allocate`, without
/// `HostMemory`. Nothing changes.
pub fn ask_to_allocate(
    regions: &Regions,
    maps: &MappingSet,
    searched: SearchedRegion,
    request: AllocateRequest,
) -> Result<PageNo, Refusal>
    requires above { regions_of regions.now request.parent.0 ≡ Some searched.region }
    requires live { searched.region.live ≡ true }
    requires end { searched.region.first + searched.region.count ≤ ROOT_END }
    requires noted { searched.noted ≡ true → AreNoted (regions_of regions.now) (places_of maps.now) }
    ensures { let spaces = spaces_of (regions_of regions.now) (table_of maps.now) in
        let command = λ (name : RegionName).
        Command.VmarAllocate name request.parent request.offset request.len request.flags request.caps in
        MatchResult result (λ first. IsRefusalOfNew spaces command None
        × IsPlace spaces request.parent.0 (has request.flags.0 specific) (has request.flags.0 upper_limit) request.offset
        (rounded request.len / PAGE) first)
        (λ refusal. IsRefusalOfNew spaces command (Some refusal)) }
{
    if !allows(searched.region, request.caps) {
        return Err(Refusal::AccessDenied);
    }
    let wanted = Wanted::by(request.flags, request.offset, request.len);
    if is_misplaced(searched.region, wanted, request.len) {
        return Err(Refusal::InvalidArgs);
    }
    match find_place(regions, maps, request.parent, searched, wanted) {
        Ok(first) => Ok(first),
        Err(refusal) => Err(refusal),
    }
}

/// Allocates a region at a free place, from the page `first` on, of the live one that is asked for, which is `above`. The new
/// name was never given. The live children of each region are noted, and the new one is noted too. `HostMemory`, with nothing
/// changed, if the host has too little memory.
pub fn allocate_at(
    regions: &mut Regions,
    maps: &mut MappingSet,
    name: RegionName,
    above: Region,
    request: AllocateRequest,
    first: PageNo,
) -> Result<(), HostMemory>
    requires name { regions_of regions.old name.0 ≡ None }
    requires above { regions_of regions.old request.parent.0 ≡ Some above }
    requires live { above.live ≡ true }
    requires good { AreGoodRegions (regions_of regions.old) }
    requires noted { AreNoted (regions_of regions.old) (places_of maps.old) }
    requires free { is_free (spaces_of (regions_of regions.old) (table_of maps.old)) request.parent.0 first
        (first + rounded request.len / PAGE) ≡ true }
    ensures allocated { MatchResult result
        (λ _. regions_of regions.new ≡ with_key (regions_of regions.old) name.0 (region_below request.parent.0
        (region_of (regions_of regions.old) request.parent.0) first (rounded request.len / PAGE) request.caps.0))
        (λ lack. regions_of regions.new ≡ regions_of regions.old) }
    ensures table { table_of maps.new ≡ table_of maps.old }
    ensures noted { AreNoted (regions_of regions.new) (places_of maps.new) }
{
    let Ok(()) = maps.reserve(1) else {
        return Err(HostMemory);
    };
    let parent = request.parent;
    let count = page_count(request.len);
    let Ok(()) = regions.allocate_below(name, parent, above, first, count, request.caps) else {
        return Err(HostMemory);
    };
    maps.hold_place(above.root, parent, first, count, name);
    Ok(())
}
