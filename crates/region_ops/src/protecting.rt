//! Changing what accesses to mapped pages may do (`zx_vmar_protect`).

ghost use Rattle.std.specs.Prelude.{◌≡◌, ◌+◌, ◌/◌, ◌<◌, ◌≤◌, ℕ, true, false, not, None, Some, MatchResult};
ghost use Rattle.vm_base.specs.Pages.{rounded};
ghost use Rattle.std.specs.Option.{MatchOption};
ghost use Rattle.vm_model.specs.declared.reply.Reply.TheVariants as Reply;
ghost use Rattle.vm_model.specs.declared.command.Command.TheVariants as Command;
ghost use Rattle.vm_model.specs.Machine.State.{State};
ghost use Rattle.vm_model.specs.Machine.Step.{Step, reply_of};
ghost use Rattle.vm_model.specs.Space.AddressSpaces.{mapped_count};
ghost use Rattle.vm_model.specs.Space.Mappings.{has_hole, forbids};
ghost use Rattle.vm_base.specs.declared.limits.TheConstants.{PAGE, ROOT_END};
ghost use Rattle.mapping_set.specs.Tables.{table_of, places_of};
ghost use Rattle.region_tree.specs.Tree.{regions_of, is_live_region, spaces_of};
ghost use Rattle.region_ops.specs.Spaces.{with_spaces, IsRefusalOf};
ghost use Rattle.region_ops.specs.inside.Covers.{IsCovered};

use crate::placing::{allows, live_region};
use crate::ranges::{PageRange, RegionRange, is_outside, lacks_reading, pages_at};
use bitflags::Flags;
use mapping_set::MappingSet;
use region_tree::{Region, Regions};
use vm_base::{PageNo, Perm, Refusal, RegionName};

/// Changes what accesses to a range of a live region may do (`zx_vmar_protect`). The range is `len` bytes, rounded up
/// to whole pages, from an address on. Refusals, in their order:
///
/// - `AccessDenied` if the region does not allow what is asked for in `perm`;
/// - `InvalidArgs` if the address is not at a page, `len` is 0, the range passes an end of the region or has a page of
///   a live child of it, or writing or executing is asked for without reading;
/// - `NotFound` if a page of the range has no entry that belongs to the region;
/// - `AccessDenied` if the entry of a page of the range may not be changed to `perm`;
/// - `HostMemory`.
pub fn protect(
    regions: &Regions,
    maps: &mut MappingSet,
    region: RegionName,
    addr: u64,
    len: u64,
    perm: Perm,
) -> Result<(), Refusal>
    requires live { is_live_region (regions_of regions.now) region.0 ≡ true }
    ensures step { (s : State) → Step (with_spaces s (spaces_of (regions_of regions.now) (table_of maps.old)))
        (Command.VmarProtect region addr len perm) (reply_of (λ done. Reply.Done) result)
        (with_spaces s (spaces_of (regions_of regions.now) (table_of maps.new))) }
    ensures mapped { (v : ℕ) → mapped_count (spaces_of (regions_of regions.now) (table_of maps.new)) v
        ≡ mapped_count (spaces_of (regions_of regions.now) (table_of maps.old)) v }
{
    let above = live_region(regions, region);
    let range = RegionRange { region, addr, len };
    protect_in(regions, maps, above, range, perm)
}

/// Does what `protect` does, in the live region of the range, which is `above`. What is noted in the regions stays as it is.
pub fn protect_in(
    regions: &Regions,
    maps: &mut MappingSet,
    above: Region,
    range: RegionRange,
    perm: Perm,
) -> Result<(), Refusal>
    requires above { regions_of regions.now range.region.0 ≡ Some above }
    requires live { above.live ≡ true }
    requires end { above.first + above.count ≤ ROOT_END }
    ensures step { (s : State) → Step (with_spaces s (spaces_of (regions_of regions.now) (table_of maps.old)))
        (Command.VmarProtect range.region range.addr range.len perm) (reply_of (λ done. Reply.Done) result)
        (with_spaces s (spaces_of (regions_of regions.now) (table_of maps.new))) }
    ensures mapped { (v : ℕ) → mapped_count (spaces_of (regions_of regions.now) (table_of maps.new)) v
        ≡ mapped_count (spaces_of (regions_of regions.now) (table_of maps.old)) v }
    ensures places { places_of maps.new ≡ places_of maps.old }
{
    let pages = match ask_to_protect(regions, maps, above, range, perm) {
        Ok(pages) => pages,
        Err(refusal) => return Err(refusal),
    };
    let Ok(()) = maps.reserve(2) else {
        return Err(Refusal::HostMemory);
    };
    maps.restrict(above.root, pages.first, pages.count, perm);
    Ok(())
}

/// Finds the pages of a range of a live region, which is `above`, whose permissions are to be changed. Each of them has an
/// entry that belongs to the region. Refusals as for `protect`, without `HostMemory`. Nothing changes.
pub fn ask_to_protect(
    regions: &Regions,
    maps: &MappingSet,
    above: Region,
    range: RegionRange,
    perm: Perm,
) -> Result<PageRange, Refusal>
    requires above { regions_of regions.now range.region.0 ≡ Some above }
    requires live { above.live ≡ true }
    requires end { above.first + above.count ≤ ROOT_END }
    ensures { let spaces = spaces_of (regions_of regions.now) (table_of maps.now) in
        let command = Command.VmarProtect range.region range.addr range.len perm in MatchResult result
        (λ pages. (pages ≡ record { first = range.addr / PAGE; count = rounded range.len / PAGE })
        × (has_hole (table_of maps.now above.root.0) range.region.0 pages.first (pages.first + pages.count) ≡ false)
        × IsRefusalOf spaces command None)
        (λ refusal. IsRefusalOf spaces command (Some refusal)) }
{
    if !allows(above, perm) {
        return Err(Refusal::AccessDenied);
    }
    if is_outside(above, range) {
        return Err(Refusal::InvalidArgs);
    }
    let pages = pages_at(range);
    if regions.meets(range.region, pages.first, pages.count) || lacks_reading(perm) {
        return Err(Refusal::InvalidArgs);
    }
    let end = pages.first + pages.count;
    let cover = cover_of(maps, above.root, range.region, pages.first, end, perm);
    if !cover.whole {
        return Err(Refusal::NotFound);
    }
    if !cover.allowed {
        return Err(Refusal::AccessDenied);
    }
    Ok(pages)
}

/// A region's cover of a range of pages whose permissions are to be changed.
#[derive(Clone, Copy, Debug)]
struct Cover {
    /// Each page has an entry that belongs to the region.
    whole: bool,
    /// True if each entry may be changed to the permissions. This counts only if `whole` is true.
    allowed: bool,
}

/// Returns a region's cover of the pages from `first` to below `end`. The function looks at each piece once, and at none
/// behind a page that has no entry of the region.
fn cover_of(
    maps: &MappingSet,
    root: RegionName,
    region: RegionName,
    first: PageNo,
    end: PageNo,
    perm: Perm,
) -> Cover
    requires order { first ≤ end }
    ensures whole { result.whole ≡ not (has_hole (table_of maps.now root.0) region.0 first end) }
    ensures allowed { has_hole (table_of maps.now root.0) region.0 first end ≡ false
        → result.allowed ≡ not (forbids (table_of maps.now root.0) perm.0 first end) }
{
    let mut at = first;
    let mut allowed = true;
    while at < end {
        let Some(stretch) = stretch_at(maps, root, region, at, end, perm) else {
            return Cover {
                whole: false,
                allowed,
            };
        };
        at = stretch.end;
        allowed &= stretch.allowed;
    }
    Cover {
        whole: true,
        allowed,
    }
}

/// Neighbouring pages whose entries belong to one region and may be changed to the same permissions.
#[derive(Clone, Copy, Debug)]
struct Stretch {
    /// The page behind the last one.
    end: PageNo,
    /// The entries may be changed to the permissions that were asked for.
    allowed: bool,
}

/// Returns the pages of one piece from the page `at` on, which end at `end` or before. `None` if and only if the page has
/// no entry that belongs to the region.
fn stretch_at(
    maps: &MappingSet,
    root: RegionName,
    region: RegionName,
    at: PageNo,
    end: PageNo,
    perm: Perm,
) -> Option<Stretch>
    requires { at < end }
    ensures { MatchOption result (has_hole (table_of maps.now root.0) region.0 at end ≡ true)
        (λ stretch. (at < stretch.end) × (stretch.end ≤ end)
        × IsCovered (table_of maps.now root.0) region.0 perm.0 at stretch.end stretch.allowed) }
{
    let Some(piece) = maps.next_piece(root, at) else {
        return None;
    };
    if piece.first != at || piece.entry.region != region {
        return None;
    }
    Some(Stretch {
        end: end.min(at + piece.count),
        allowed: piece.entry.cap.contains(perm),
    })
}
