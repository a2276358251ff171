//! Mapping a part of a VMO into a region (`zx_vmar_map`).

ghost use Rattle.std.specs.Prelude.{◌≡◌, ◌+◌, ◌-◌, ◌*◌, ◌/◌, ◌%◌, ◌≤◌, ◌↔◌, true, false, not, ◌&&◌, ◌||◌, nat_lt, if◌then◌else◌, None, Some, IsTrue, MatchResult};
ghost use Rattle.vm_base.specs.Pages.{rounded};
ghost use Rattle.vm_base.specs.declared.limits.TheConstants.{PAGE, VMO_PAGES, ROOT_END};
ghost use Rattle.vm_base.specs.declared.names.VmoName.{VmoName};
ghost use Rattle.vm_model.specs.declared.reply.Reply.TheVariants as Reply;
ghost use Rattle.vm_model.specs.declared.command.Command.TheVariants as Command;
ghost use Rattle.vm_model.specs.declared.names.NameKind.TheVariants.{Slice};
ghost use Rattle.vm_model.specs.Naming.Names.{is_kind};
ghost use Rattle.vm_model.specs.Space.Rights.{has, writing, specific, overwrite, upper_limit, allow_faults};
ghost use Rattle.vm_model.specs.Space.Mappings.{cap_of, entry_of, is_mismapped, IsMapPlace};
ghost use Rattle.vm_model.specs.Space.Table.{with_pages};
ghost use Rattle.vm_model.specs.Machine.Refusals.{first_of};
ghost use Rattle.vm_model.specs.Machine.Step.{reply_of};
ghost use Rattle.vmo_table.specs.Table.{names_of, IsNamed};
ghost use Rattle.mapping_set.specs.Tables.{table_of, mapping_spare, places_of, IsBare};
ghost use Rattle.region_tree.specs.Tree.{regions_of, is_live_region, spaces_of, AreNoted, IsVacant};
ghost use Rattle.page_store.specs.Names.{IsInside};
ghost use Rattle.region_ops.specs.Spaces.{AreWell, AreAllWell, Does, LetsGo, HasNoPlace, IsRefusalBy};
ghost use Rattle.region_ops.specs.inside.Mapping.{map_rows, no_entries, IsPuttable, Puts};

use crate::leaving::clear_range;
use crate::placing::{
    SearchedRegion, Wanted, allows, find_place, is_misplaced, is_place, live_region,
};
use crate::ranges::{PageRange, lacks_reading};
use bitflags::Flags;
use mapping_set::{Entry, MappingSet, Piece};
use page_store::{PageStore, pages_of_name};
use region_tree::{Region, Regions};
use vm_base::{
    HostMemory, MapFlags, PAGE, PageNo, Perm, Refusal, RegionName, VMO_PAGES, VmoName, in_page,
    page_count, page_of,
};
use vm_model::{NameKind, Target};
use vmo_table::VmoTable;

/// A mapping that is asked for in a region: `len` bytes, rounded up to whole pages, of what a name stands for. `mapped` is the
/// name, or what it stands for.
#[derive(Clone, Copy, Debug)]
pub struct MapRequest<T> {
    pub region: RegionName,
    /// In bytes from the start of the region.
    pub offset: u64,
    pub mapped: T,
    /// The offset in what is mapped, in bytes.
    pub vmo_offset: u64,
    pub len: u64,
    pub perm: Perm,
    pub flags: MapFlags,
}

impl MapRequest<VmoName> {
    /// Returns the request for what its name stands for.
    pub fn of(self, target: Target) -> MapRequest<Target>
        ensures { result ≡ record {
          region = self.region;
          offset = self.offset;
          mapped = target;
          vmo_offset = self.vmo_offset;
          len = self.len;
          perm = self.perm;
          flags = self.flags;
        } }
    {
        MapRequest {
            region: self.region,
            offset: self.offset,
            mapped: target,
            vmo_offset: self.vmo_offset,
            len: self.len,
            perm: self.perm,
            flags: self.flags,
        }
    }
}

/// Maps `len` bytes, rounded up to whole pages, of what an open name stands for into a live region (`zx_vmar_map`), and
/// answers the address. The first page that is shown is the one at `vmo_offset` bytes in the name. `offset` is in bytes
/// from the start of the region. The mapping begins there with `SPECIFIC`, and with `OVERWRITE`, which takes out what
/// is mapped there. It ends at or below `offset` with `UPPER_LIMIT`. With none of the three, `offset` is 0, and any
/// place will do. Refusals, in their order:
///
/// - `AccessDenied` if the region does not allow what is asked for in `perm`, or the name may not write and `perm` has
///   writing;
/// - `InvalidArgs` if an offset is not at a page, `len` is 0, more than one of the three options is given, an offset is
///   given with none of them, a place at the offset passes the region's end, what would be overwritten has a page of a
///   live child of the region, or writing or executing is asked for without reading;
/// - `OutOfRange` if the part of the VMO would end past the greatest size of a VMO;
/// - `BufferTooSmall` if this part ends past the end of the name, and `ALLOW_FAULTS` is not given or the name is a
///   slice;
/// - `AlreadyExists` if the place at the offset is not free;
/// - `NoResources` if no free place fits;
/// - `HostMemory`.
pub fn map<P: PageStore>(
    store: &mut P,
    vmos: &mut VmoTable,
    regions: &Regions,
    maps: &mut MappingSet,
    region: RegionName,
    offset: u64,
    t: &Target,
    vmo_offset: u64,
    len: u64,
    perm: Perm,
    flags: MapFlags,
) -> Result<u64, Refusal>
    requires live { is_live_region (regions_of regions.now) region.0 ≡ true }
    requires named { IsNamed (names_of vmos.old) t.now }
    requires well { AreAllWell (P.content store.old) vmos.old (spaces_of (regions_of regions.now) (table_of maps.old)) }
    ensures { (name : VmoName) → names_of vmos.old name.0 ≡ Some t.now →
        Does (P.content store.old) vmos.old (spaces_of (regions_of regions.now) (table_of maps.old))
        (Command.VmarMap region offset name vmo_offset len perm flags) (reply_of (λ address. Reply.Address address) result)
        (P.content store.new) vmos.new (spaces_of (regions_of regions.now) (table_of maps.new)) }
{
    let searched = SearchedRegion {
        region: live_region(regions, region),
        noted: false,
    };
    let request = MapRequest {
        region,
        offset,
        mapped: *t,
        vmo_offset,
        len,
        perm,
        flags,
    };
    map_in(store, vmos, regions, maps, searched, request)
}

/// Does what `map` does, in the live region that is asked for. What is noted in the regions stays as it is, if the set of
/// mappings has noted the live children of each region.
pub fn map_in<P: PageStore>(
    store: &mut P,
    vmos: &mut VmoTable,
    regions: &Regions,
    maps: &mut MappingSet,
    searched: SearchedRegion,
    request: MapRequest<Target>,
) -> Result<u64, Refusal>
    requires above { regions_of regions.now request.region.0 ≡ Some searched.region }
    requires live { searched.region.live ≡ true }
    requires end { searched.region.first + searched.region.count ≤ ROOT_END }
    requires named { IsNamed (names_of vmos.old) request.mapped }
    requires well { AreAllWell (P.content store.old) vmos.old (spaces_of (regions_of regions.now) (table_of maps.old)) }
    requires noted { searched.noted ≡ true → AreNoted (regions_of regions.now) (places_of maps.old) }
    ensures does { (name : VmoName) → names_of vmos.old name.0 ≡ Some request.mapped →
        Does (P.content store.old) vmos.old (spaces_of (regions_of regions.now) (table_of maps.old))
        (Command.VmarMap request.region request.offset name request.vmo_offset request.len request.perm request.flags)
        (reply_of (λ address. Reply.Address address) result)
        (P.content store.new) vmos.new (spaces_of (regions_of regions.now) (table_of maps.new)) }
    ensures places { searched.noted ≡ true → places_of maps.new ≡ places_of maps.old }
{
    let first = match ask_to_map(store, regions, maps, searched, request) {
        Ok(first) => first,
        Err(refusal) => return Err(refusal),
    };
    let piece = piece_at(searched.region, request, first);
    let overwriting = request.flags.contains(MapFlags::OVERWRITE);
    match map_at(store, vmos, maps, searched.region.root, piece, overwriting) {
        Ok(()) => Ok(first * PAGE),
        Err(_) => Err(Refusal::HostMemory),
    }
}

/// Finds the first page of a place for a mapping in the live region that is asked for. Refusals as for `map`, without
/// `HostMemory`. Nothing changes.
pub fn ask_to_map<P: PageStore>(
    store: &P,
    regions: &Regions,
    maps: &MappingSet,
    searched: SearchedRegion,
    request: MapRequest<Target>,
) -> Result<PageNo, Refusal>
    requires above { regions_of regions.now request.region.0 ≡ Some searched.region }
    requires live { searched.region.live ≡ true }
    requires end { searched.region.first + searched.region.count ≤ ROOT_END }
    requires inside { IsInside (P.content store.now) request.mapped }
    requires noted { searched.noted ≡ true → AreNoted (regions_of regions.now) (places_of maps.now) }
    ensures { let spaces = spaces_of (regions_of regions.now) (table_of maps.now) in
        let command = λ (name : VmoName).
        Command.VmarMap request.region request.offset name request.vmo_offset request.len request.perm request.flags in
        MatchResult result (λ first. IsRefusalBy (P.content store.now) spaces request.mapped command None
        × IsMapPlace spaces request.region.0 (has request.flags.0 overwrite) (has request.flags.0 specific)
        (has request.flags.0 upper_limit) request.offset (rounded request.len / PAGE) first)
        (λ refusal. IsRefusalBy (P.content store.now) spaces request.mapped command (Some refusal)) }
{
    let wanted = Wanted::by(request.flags, request.offset, request.len);
    let pages = pages_of_name(store, &request.mapped);
    if let Some(refusal) = map_refusal(regions, searched.region, wanted, request, pages) {
        return Err(refusal);
    }
    match find_map_place(regions, maps, request.region, searched, wanted) {
        Ok(first) => Ok(first),
        Err(refusal) => Err(refusal),
    }
}

/// Returns the refusal of a mapping that is decided before a place is looked for, if there is one. `wanted` is the place for
/// which the request asks. What is mapped has `pages` pages.
fn map_refusal(
    regions: &Regions,
    above: Region,
    wanted: Wanted,
    request: MapRequest<Target>,
    pages: PageNo,
) -> Option<Refusal>
    requires above { regions_of regions.now request.region.0 ≡ Some above }
    requires live { above.live ≡ true }
    requires end { above.first + above.count ≤ ROOT_END }
    requires count { wanted.count ≡ rounded request.len / PAGE }
    ensures { result ≡ first_of (map_rows pages (regions_of regions.now) request.region.0 above
        wanted.overwriting wanted.fixed wanted.limited (has request.flags.0 allow_faults) wanted.offset request.mapped
        request.vmo_offset request.len request.perm.0) }
{
    if is_denied(above, request) {
        return Some(Refusal::AccessDenied);
    }
    if is_mismapped(regions, above, wanted, request) {
        return Some(Refusal::InvalidArgs);
    }
    if passes(VMO_PAGES, request.vmo_offset, request.len) {
        return Some(Refusal::OutOfRange);
    }
    let faults = request.flags.contains(MapFlags::ALLOW_FAULTS);
    if passes(pages, request.vmo_offset, request.len) && (!faults || is_slice(request.mapped)) {
        return Some(Refusal::BufferTooSmall);
    }
    None
}

/// Returns whether a region or a name does not allow the permissions of a mapping.
fn is_denied(above: Region, request: MapRequest<Target>) -> bool
    ensures { result ≡
        (not (has above.caps.0 request.perm.0) || (has request.perm.0 writing && not request.mapped.may_write)) }
{
    !allows(above, request.perm)
        || (request.perm.contains(Perm::WRITE) && !request.mapped.may_write)
}

/// Returns whether a name stands for a part of a VMO.
fn is_slice(target: Target) -> bool
    ensures { result ≡ is_kind Slice target.kind }
{
    matches!(target.kind, NameKind::Slice)
}

/// Returns whether a mapping is asked for wrongly, at whatever place.
fn is_mismapped(
    regions: &Regions,
    above: Region,
    wanted: Wanted,
    request: MapRequest<Target>,
) -> bool
    requires above { regions_of regions.now request.region.0 ≡ Some above }
    requires live { above.live ≡ true }
    requires end { above.first + above.count ≤ ROOT_END }
    requires count { wanted.count ≡ rounded request.len / PAGE }
    ensures { result ≡ is_mismapped (spaces_of (regions_of regions.now) no_entries) request.region.0 wanted.overwriting
        wanted.fixed wanted.limited wanted.offset request.vmo_offset request.len request.perm.0 }
{
    let at = Wanted {
        fixed: wanted.fixed || wanted.overwriting,
        ..wanted
    };
    if is_misplaced(above, at, request.len) {
        return true;
    }
    if in_page(request.vmo_offset) != 0 || (wanted.fixed && wanted.overwriting) {
        return true;
    }
    if lacks_reading(request.perm) {
        return true;
    }
    if !wanted.overwriting {
        return false;
    }
    let first = above.first + page_of(wanted.offset);
    regions.meets(request.region, first, wanted.count)
}

/// Returns whether `len` bytes, rounded up to whole pages, from an offset at a page on, pass the end of `pages` pages.
fn passes(pages: PageNo, offset: u64, len: u64) -> bool
    requires { offset % PAGE ≡ 0 }
    ensures { result ≡ nat_lt (pages * PAGE) (offset + rounded len) }
{
    page_of(offset) + page_count(len) > pages
}

/// Returns the first page of a place for a mapping in a live region. A mapping that overwrites has its place at the offset.
/// Any other has a free place, as `find_place` finds it.
fn find_map_place(
    regions: &Regions,
    maps: &MappingSet,
    region: RegionName,
    searched: SearchedRegion,
    wanted: Wanted,
) -> Result<PageNo, Refusal>
    requires noted { searched.noted ≡ true → AreNoted (regions_of regions.now) (places_of maps.now) }
    requires above { regions_of regions.now region.0 ≡ Some searched.region }
    requires live { searched.region.live ≡ true }
    requires end { searched.region.first + searched.region.count ≤ ROOT_END }
    requires some { 1 ≤ wanted.count }
    requires way { wanted.fixed ≡ true → wanted.limited ≡ false }
    requires inside { wanted.fixed ≡ true → wanted.offset / PAGE + wanted.count ≤ searched.region.count }
    ensures { MatchResult result
        (λ first. IsMapPlace (spaces_of (regions_of regions.now) (table_of maps.now)) region.0 wanted.overwriting
        wanted.fixed wanted.limited wanted.offset wanted.count first)
        (λ refusal. (wanted.overwriting ≡ false) × HasNoPlace (spaces_of (regions_of regions.now) (table_of maps.now))
        region.0 wanted.fixed wanted.limited wanted.offset wanted.count refusal) }
{
    if wanted.overwriting {
        return Ok(searched.region.first + page_of(wanted.offset));
    }
    find_place(regions, maps, region, searched, wanted)
}

/// Returns whether a mapping may begin at a page of a live region, which is `above`. A mapping that overwrites begins at the
/// offset, and any other as `is_place` says.
pub fn is_map_place(
    regions: &Regions,
    maps: &MappingSet,
    region: RegionName,
    above: Region,
    wanted: Wanted,
    first: PageNo,
) -> bool
    requires noted { AreNoted (regions_of regions.now) (places_of maps.now) }
    requires above { regions_of regions.now region.0 ≡ Some above }
    requires live { above.live ≡ true }
    requires end { above.first + above.count ≤ ROOT_END }
    ensures { IsTrue result ↔ IsMapPlace (spaces_of (regions_of regions.now) (table_of maps.now)) region.0
        wanted.overwriting wanted.fixed wanted.limited wanted.offset wanted.count first }
{
    if wanted.overwriting {
        return first == above.first + page_of(wanted.offset);
    }
    is_place(regions, maps, region, above, wanted, first)
}

/// Returns the mapping that is asked for in a region, which is `above`, from the page `first` of the address space on.
pub fn piece_at(above: Region, request: MapRequest<Target>, first: PageNo) -> Piece
    requires { request.mapped.first ≤ VMO_PAGES }
    ensures { result ≡ record {
      first = first;
      count = rounded request.len / PAGE;
      entry = entry_of above request.region.0 request.mapped (request.vmo_offset / PAGE) request.perm;
    } }
{
    Piece {
        first,
        count: page_count(request.len),
        entry: Entry {
            koid: request.mapped.koid,
            page: request.mapped.first + page_of(request.vmo_offset),
            perm: request.perm,
            cap: cap_of(above, request.mapped),
            region: request.region,
        },
    }
}

/// Returns what the permissions of a mapping's entries may be changed to: what the region allows, without writing if the
/// name may not write.
fn cap_of(above: Region, target: Target) -> Perm
    ensures { result.0 ≡ cap_of above target }
{
    if target.may_write {
        return above.caps;
    }
    without_writing(above.caps)
}

/// Returns the permissions without writing.
fn without_writing(caps: Perm) -> Perm
    ensures { result.0 ≡ if has caps.0 writing then caps.0 - writing else caps.0 }
{
    prove!(caps.0 <= u32::MAX);
    caps.difference(Perm::WRITE)
}

/// Puts a mapping at its place, and counts its pages as keepers of its VMO. With `overwriting`, what is mapped there is
/// taken out. `HostMemory`, with nothing changed, if the host has too little memory.
pub fn map_at<P: PageStore>(
    store: &mut P,
    vmos: &mut VmoTable,
    maps: &mut MappingSet,
    root: RegionName,
    piece: Piece,
    overwriting: bool,
) -> Result<(), HostMemory>
    requires well { AreWell (P.content store.old) vmos.old (table_of maps.old) }
    requires place { IsPuttable (names_of vmos.old) (table_of maps.old) root.0 piece overwriting }
    ensures puts { MatchResult result
        (λ _. Puts (P.content store.old) vmos.old (table_of maps.old) root.0 piece
        (P.content store.new) vmos.new (table_of maps.new))
        (λ lack. (P.content store.new ≡ P.content store.old) × (vmos.new ≡ vmos.old)
        × (table_of maps.new ≡ table_of maps.old) × (places_of maps.new ≡ places_of maps.old)) }
    ensures places { IsVacant (places_of maps.old) root.0 piece.entry.region.0 piece.first piece.count
        → places_of maps.new ≡ places_of maps.old }
{
    let Ok(()) = maps.reserve(2) else {
        return Err(HostMemory);
    };
    put(store, vmos, maps, root, piece, overwriting);
    Ok(())
}

/// Puts a mapping at its place. There is room for it.
fn put<P: PageStore>(
    store: &mut P,
    vmos: &mut VmoTable,
    maps: &mut MappingSet,
    root: RegionName,
    piece: Piece,
    overwriting: bool,
)
    requires well { AreWell (P.content store.old) vmos.old (table_of maps.old) }
    requires room { 2 ≤ mapping_spare maps.old }
    requires place { IsPuttable (names_of vmos.old) (table_of maps.old) root.0 piece overwriting }
    ensures puts { Puts (P.content store.old) vmos.old (table_of maps.old) root.0 piece
        (P.content store.new) vmos.new (table_of maps.new) }
    ensures places { IsVacant (places_of maps.old) root.0 piece.entry.region.0 piece.first piece.count
        → places_of maps.new ≡ places_of maps.old }
{
    let place = PageRange {
        first: piece.first,
        count: piece.count,
    };
    clear_place(store, vmos, maps, root, place, overwriting);
    vmos.keep(piece.entry.koid, piece.count);
    maps.place(root, piece);
}

/// Takes out what is mapped on the pages of a place that is overwritten. At any other place nothing is mapped.
fn clear_place<P: PageStore>(
    store: &mut P,
    vmos: &mut VmoTable,
    maps: &mut MappingSet,
    root: RegionName,
    place: PageRange,
    overwriting: bool,
)
    requires well { AreWell (P.content store.old) vmos.old (table_of maps.old) }
    requires room { 2 ≤ mapping_spare maps.old }
    requires bare { overwriting ≡ false → IsBare (table_of maps.old root.0) place.first (place.first + place.count) }
    ensures table { table_of maps.new
        ≡ with_pages (table_of maps.old) root.0 place.first (place.first + place.count) (λ p. None) }
    ensures gone { LetsGo (P.content store.old) vmos.old (table_of maps.old)
        (P.content store.new) vmos.new (table_of maps.new) }
    ensures spare { 1 ≤ mapping_spare maps.new }
    ensures places { places_of maps.new ≡ places_of maps.old }
{
    if overwriting {
        clear_range(store, vmos, maps, root, place.first, place.count);
    }
}
