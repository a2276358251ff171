//! The region that a call is about, what it allows, and where in it a place is.

ghost use Rattle.std.specs.Prelude.{◌≡◌, ℕ, ◌+◌, ◌/◌, ◌≤◌, ◌↔◌, true, false, not, min, is_some, if◌then◌else◌, Option, Some, IsTrue, MatchResult};
ghost use Rattle.vm_base.specs.Pages.{rounded};
ghost use Rattle.vm_base.specs.declared.limits.TheConstants.{PAGE, ROOT_END};
ghost use Rattle.vm_base.specs.declared.refusal.Refusal.{Refusal};
ghost use Rattle.vm_base.specs.declared.refusal.Refusal.TheVariants.{BadHandle, BadState};
ghost use Rattle.vm_model.specs.Space.Places.{IsPlace, is_misplaced, limit_of};
ghost use Rattle.vm_model.specs.Space.Rights.{has, specific, overwrite, upper_limit};
ghost use Rattle.std.specs.Option.{MatchOption};
ghost use Rattle.vm_base.specs.declared.limits.TheConstants.{PAGES_END};
ghost use Rattle.vm_model.specs.Space.Regions.{region_of, AreGoodRegions};
ghost use Rattle.vm_model.specs.Space.Places.{is_free, has_place};
ghost use Rattle.mapping_set.specs.Tables.{table_of, places_of};
ghost use Rattle.region_tree.specs.Tree.{regions_of, is_live_region, spaces_of, AreNoted};
ghost use Rattle.region_ops.specs.Spaces.{HasNoPlace};

use bitflags::Flags;
use mapping_set::MappingSet;
use region_tree::{Region, Regions};
use vm_base::{MapFlags, PageNo, Perm, Refusal, RegionName, in_page, page_count, page_of};

/// Returns the live region of a name. It ends at the end of the address space, or before.
pub(crate) fn live_region(regions: &Regions, name: RegionName) -> Region
    requires { is_live_region (regions_of regions.now) name.0 ≡ true }
    ensures region { regions_of regions.now name.0 ≡ Some result }
    ensures live { result.live ≡ true }
    ensures end { result.first + result.count ≤ ROOT_END }
    ensures good { AreGoodRegions (regions_of regions.now) }
{
    let Some(region) = regions.get(name) else {
        unreachable!()
    };
    region
}

/// Returns whether a region allows these permissions to what is in it.
pub(crate) fn allows(region: Region, caps: Perm) -> bool
    ensures { result ≡ has region.caps.0 caps.0 }
{
    region.caps.contains(caps)
}

/// The live region of a name, in which a place is looked for.
#[derive(Clone, Copy, Debug)]
pub struct SearchedRegion {
    pub region: Region,
    /// The set of mappings has noted the live children of each region.
    pub noted: bool,
}

/// The place that is asked for.
#[derive(Clone, Copy, Debug)]
pub struct Wanted {
    /// The place begins at the offset.
    pub fixed: bool,
    /// The place ends at the offset, or before it.
    pub limited: bool,
    /// The place begins at the offset, and what is mapped there is taken out. To allocate a region, this asks for
    /// nothing.
    pub overwriting: bool,
    /// The offset, in bytes from the start of the region.
    pub offset: u64,
    /// The number of its pages.
    pub count: u64,
}

impl Wanted {
    /// Returns the place for which the options ask, with an offset, and for `len` bytes, rounded up to whole pages.
    pub fn by(flags: MapFlags, offset: u64, len: u64) -> Wanted
        ensures { result ≡ record {
          fixed = has flags.0 specific;
          limited = has flags.0 upper_limit;
          overwriting = has flags.0 overwrite;
          offset = offset;
          count = rounded len / PAGE;
        } }
    {
        Wanted {
            fixed: flags.contains(MapFlags::SPECIFIC),
            limited: flags.contains(MapFlags::UPPER_LIMIT),
            overwriting: flags.contains(MapFlags::OVERWRITE),
            offset,
            count: page_count(len),
        }
    }
}

/// Returns whether no place can be asked for like this. That is so if the offset is not at a page, `len` is 0, both ways
/// are asked for, an offset is given with neither, or a fixed place passes the region's end.
pub(crate) fn is_misplaced(above: Region, wanted: Wanted, len: u64) -> bool
    ensures { result ≡ is_misplaced above wanted.fixed wanted.limited wanted.offset len }
{
    if in_page(wanted.offset) != 0 || len == 0 {
        return true;
    }
    if !wanted.fixed {
        return !wanted.limited && wanted.offset != 0;
    }
    wanted.limited || page_of(wanted.offset) + page_count(len) > above.count
}

/// Returns the first page of a free place in a live region. A fixed place ends in the region. Refusals: `AlreadyExists` if the
/// fixed place is not free, `NoResources` if no free place fits.
pub(crate) fn find_place(
    regions: &Regions,
    maps: &MappingSet,
    name: RegionName,
    searched: SearchedRegion,
    wanted: Wanted,
) -> Result<PageNo, Refusal>
    requires noted { searched.noted ≡ true → AreNoted (regions_of regions.now) (places_of maps.now) }
    requires above { regions_of regions.now name.0 ≡ Some searched.region }
    requires live { searched.region.live ≡ true }
    requires end { searched.region.first + searched.region.count ≤ ROOT_END }
    requires some { 1 ≤ wanted.count }
    requires way { wanted.fixed ≡ true → wanted.limited ≡ false }
    requires inside { wanted.fixed ≡ true → wanted.offset / PAGE + wanted.count ≤ searched.region.count }
    ensures { MatchResult result
        (λ first. IsPlace (spaces_of (regions_of regions.now) (table_of maps.now)) name.0 wanted.fixed wanted.limited
        wanted.offset wanted.count first)
        (λ refusal. HasNoPlace (spaces_of (regions_of regions.now) (table_of maps.now)) name.0 wanted.fixed
        wanted.limited wanted.offset wanted.count refusal) }
{
    if wanted.fixed {
        let first = searched.region.first + page_of(wanted.offset);
        return if is_free(regions, maps, name, searched, first, wanted.count) {
            Ok(first)
        } else {
            Err(Refusal::AlreadyExists)
        };
    }
    let limit = if wanted.limited {
        page_of(wanted.offset)
    } else {
        searched.region.count
    };
    match find_gap(regions, maps, name, searched, wanted.count, limit) {
        Some(first) => Ok(first),
        None => Err(Refusal::NoResources),
    }
}

/// Returns whether `count` pages from `first` on are a free place in a live region.
fn is_free(
    regions: &Regions,
    maps: &MappingSet,
    name: RegionName,
    searched: SearchedRegion,
    first: PageNo,
    count: u64,
) -> bool
    requires noted { searched.noted ≡ true → AreNoted (regions_of regions.now) (places_of maps.now) }
    requires above { regions_of regions.now name.0 ≡ Some searched.region }
    requires live { searched.region.live ≡ true }
    requires pages { first + count ≤ PAGES_END }
    ensures { result ≡
        is_free (spaces_of (regions_of regions.now) (table_of maps.now)) name.0 first (first + count) }
{
    if searched.noted {
        regions.is_free_noted(maps, name, searched.region, first, count)
    } else {
        regions.is_free(maps, name, first, count)
    }
}

/// Returns the first page of a free place of `count` pages in a live region, as `Regions::find_gap` finds it.
fn find_gap(
    regions: &Regions,
    maps: &MappingSet,
    name: RegionName,
    searched: SearchedRegion,
    count: u64,
    limit: u64,
) -> Option<PageNo>
    requires noted { searched.noted ≡ true → AreNoted (regions_of regions.now) (places_of maps.now) }
    requires above { regions_of regions.now name.0 ≡ Some searched.region }
    requires live { searched.region.live ≡ true }
    requires some { 1 ≤ count }
    ensures { let spaces = spaces_of (regions_of regions.now) (table_of maps.now) in
        MatchOption result (has_place spaces name.0 count limit ≡ false) (λ (first : ℕ).
        (is_free spaces name.0 first (first + count) ≡ true) ×
        (first + count ≤ (region_of (regions_of regions.now) name.0).first + limit)) }
{
    if searched.noted {
        regions.find_gap_noted(maps, name, searched.region, count, limit)
    } else {
        regions.find_gap(maps, name, count, limit)
    }
}

/// Returns whether a page begins a free place in a live region, which is `above`, that suits the request.
pub fn is_place(
    regions: &Regions,
    maps: &MappingSet,
    name: RegionName,
    above: Region,
    wanted: Wanted,
    first: PageNo,
) -> bool
    requires noted { AreNoted (regions_of regions.now) (places_of maps.now) }
    requires above { regions_of regions.now name.0 ≡ Some above }
    requires live { above.live ≡ true }
    requires end { above.first + above.count ≤ ROOT_END }
    ensures { IsTrue result ↔ IsPlace (spaces_of (regions_of regions.now) (table_of maps.now)) name.0
        wanted.fixed wanted.limited wanted.offset wanted.count first }
{
    let count = wanted.count;
    let end = above.first + longest(above, wanted);
    if first > end || count > end - first {
        return false;
    }
    if wanted.fixed && first != above.first + page_of(wanted.offset) {
        return false;
    }
    regions.is_free_noted(maps, name, above, first, count)
}

/// Returns how many pages behind the start of a region a place may end at most.
fn longest(above: Region, wanted: Wanted) -> u64
    ensures { result ≡ min (limit_of above wanted.limited wanted.offset) above.count }
{
    if wanted.limited {
        page_of(wanted.offset).min(above.count)
    } else {
        above.count
    }
}

/// Returns the region of a name, if it is live, for a command that asks for it before anything else. Refusals: `BadHandle`
/// if the name was never given, `BadState` if the region is dead.
pub fn ask_for_region(regions: &Regions, name: RegionName) -> Result<Region, Refusal>
    ensures { MatchResult result
        (λ above. (regions_of regions.now name.0 ≡ Some above) × (above.live ≡ true) × (above.first + above.count ≤ ROOT_END))
        (λ refusal. (rest : Option Refusal) → Some refusal ≡ if not (is_some (regions_of regions.now name.0)) then Some BadHandle
        else if not (region_of (regions_of regions.now) name.0).live then Some BadState else rest) }
{
    let Some(region) = regions.get(name) else {
        return Err(Refusal::BadHandle);
    };
    if !region.live {
        return Err(Refusal::BadState);
    }
    Ok(region)
}
