//! Whether a command may want memory of the host: nothing refuses it, and it may lack memory. Nothing changes. A place in a
//! region is looked for without the notes of children, since a transcript ends at the one reply for which this is asked.

ghost use Rattle.std.specs.Prelude.{◌≡◌, ◌≤◌, Bool, IsSome, not};
ghost use Rattle.std.specs.List.{list_any};
ghost use Rattle.vm_model.specs.declared.command.Command.TheVariants as Command;
ghost use Rattle.vm_model.specs.Contents.Content.{Content, is_held, sole};
ghost use Rattle.vm_model.specs.Machine.State.{State};
ghost use Rattle.mapping_set.specs.Backed.{AreBacked};
ghost use Rattle.mapping_set.specs.Tables.{table_of, places_of};
ghost use Rattle.region_tree.specs.Tree.{regions_of, spaces_of, AreNoted};
ghost use Rattle.region_ops.specs.Spaces.{with_all, with_spaces};
ghost use Rattle.vmo_ops.specs.Ranges.{touched_row};
ghost use Rattle.vmo_ops.specs.Targets.{with_tables, AreTogether};
ghost use Rattle.vmo_table.specs.Table.{with_vmos, AreParts};
ghost use Rattle.page_store.specs.Flat.{flat_content};
ghost use Rattle.machine.specs.Groups.{group_of};
ghost use Rattle.machine.specs.declared.groups.Group.{Group};
ghost use Rattle.checker_machine.specs.Machine.{ready_by};
ghost use Rattle.checker_machine.specs.inside.Wanting.{may_lack, may_want};

use checker_ready::{
    ReadyMap, refusal_to_read, refusal_to_write, wants_memory_to_read, wants_memory_to_write,
};
use machine::{ChildRequest, PinRequest, RegionCommand, region_command};
use mapping_set::MappingSet;
use page_store::{FlatStore, PageStore};
use pin_table::PinTable;
use region_ops::{
    AllocateRequest, MapRequest, RegionRange, SearchedRegion, ask_for_region, ask_to_allocate,
    ask_to_map, ask_to_protect, ask_to_unmap, is_mapped_in,
};
use region_tree::Regions;
use vm_base::{Koid, Perm, RegionName, VmoName};
use vm_model::{Call, ChildKind};
use vmo_ops::{
    ChildShape, NameRange, TouchedPages, ask_to_create, ask_to_decommit, ask_to_own, ask_to_pin,
    ask_to_reference, ask_to_slice, ask_to_snapshot, ask_to_zero, touched_by,
};
use vmo_table::VmoTable;

/// Returns whether a command on a VMO as a whole may want memory.
pub(crate) fn vmo_wants(
    pages: &FlatStore,
    vmos: &VmoTable,
    pins: &PinTable,
    call: &Call<'_>,
) -> bool
    requires group { group_of call.now ≡ Group.Vmo }
    requires parts { AreTogether (flat_content pages.now) vmos.now pins.now }
    ensures { (s : State) → result ≡ may_lack (with_tables s (flat_content pages.now) vmos.now pins.now) call.now }
{
    match call {
        Call::VmoCreate { name, size, .. } => create_wants(vmos, *name, *size),
        Call::VmoChild {
            name,
            parent,
            kind,
            offset,
            size,
            resizable,
            no_write,
        } => {
            let shape = ChildShape {
                offset: *offset,
                size: *size,
                resizable: *resizable,
                no_write: *no_write,
            };
            let request = ChildRequest {
                parent: *parent,
                kind: *kind,
                shape,
            };
            child_wants(pages, vmos, pins, *name, request)
        }
        _ => false,
    }
}

fn create_wants(vmos: &VmoTable, name: VmoName, size: u64) -> bool
    ensures { (s : State) (c : Content) (resizable : Bool) → result ≡ may_lack (with_vmos s c vmos.now) (Command.VmoCreate name size resizable) }
{
    if vmos.resolve(name).is_some() {
        return false;
    }
    ask_to_create(size).is_ok()
}

fn child_wants(
    pages: &FlatStore,
    vmos: &VmoTable,
    pins: &PinTable,
    name: VmoName,
    request: ChildRequest,
) -> bool
    requires { AreTogether (flat_content pages.now) vmos.now pins.now }
    ensures { (s : State) → result ≡ may_lack (with_tables s (flat_content pages.now) vmos.now pins.now)
        (Command.VmoChild name request.parent request.kind request.shape.offset request.shape.size request.shape.resizable request.shape.no_write) }
{
    let Some(target) = vmos.resolve(request.parent) else {
        return false;
    };
    if vmos.resolve(name).is_some() {
        return false;
    }
    let (offset, size) = (request.shape.offset, request.shape.size);
    let (resizable, no_write) = (request.shape.resizable, request.shape.no_write);
    match request.kind {
        ChildKind::Snapshot => {
            ask_to_snapshot(pages, pins, &target, offset, size, resizable, no_write).is_ok()
        }
        ChildKind::Slice => ask_to_slice(pages, vmos, &target, offset, size, resizable).is_ok(),
        ChildKind::Reference => {
            ask_to_reference(&target, offset, size, resizable, no_write).is_ok()
        }
    }
}

/// Returns whether a command on pages of a VMO may want memory.
pub(crate) fn pages_want(
    pages: &FlatStore,
    vmos: &VmoTable,
    pins: &PinTable,
    call: &Call<'_>,
) -> bool
    requires group { group_of call.now ≡ Group.Pages }
    requires parts { AreTogether (flat_content pages.now) vmos.now pins.now }
    ensures { (s : State) → result ≡ may_lack (with_tables s (flat_content pages.now) vmos.now pins.now) call.now }
{
    match call {
        Call::VmoWrite {
            name,
            offset,
            bytes,
        } => {
            let len = bytes.as_slice().len() as u64;
            own_wants(pages, vmos, NameRange::new(*name, *offset, len))
        }
        Call::VmoFill {
            name,
            offset,
            len,
            ..
        } => own_wants(pages, vmos, NameRange::new(*name, *offset, *len)),
        Call::VmoCommit { name, offset, len } => {
            own_wants(pages, vmos, NameRange::new(*name, *offset, *len))
        }
        Call::VmoZero { name, offset, len } => {
            zero_wants(pages, vmos, pins, NameRange::new(*name, *offset, *len))
        }
        Call::VmoDecommit { name, offset, len } => {
            decommit_wants(pages, vmos, pins, NameRange::new(*name, *offset, *len))
        }
        _ => false,
    }
}

// Whether a write, a fill or a commit of a range may want memory.
fn own_wants(pages: &FlatStore, vmos: &VmoTable, range: NameRange) -> bool
    requires { AreParts (flat_content pages.now) vmos.now }
    ensures { (s : State) → result ≡ may_lack (with_vmos s (flat_content pages.now) vmos.now) (Command.VmoCommit range.name range.offset range.len) }
{
    let Some(target) = vmos.resolve(range.name) else {
        return false;
    };
    match ask_to_own(pages, &target, range.offset, range.len) {
        Ok(asked) => has_shared(pages, target.koid, asked.pages),
        Err(_) => false,
    }
}

fn zero_wants(pages: &FlatStore, vmos: &VmoTable, pins: &PinTable, range: NameRange) -> bool
    requires { AreTogether (flat_content pages.now) vmos.now pins.now }
    ensures { (s : State) → result ≡ may_lack (with_tables s (flat_content pages.now) vmos.now pins.now) (Command.VmoZero range.name range.offset range.len) }
{
    let Some(target) = vmos.resolve(range.name) else {
        return false;
    };
    match ask_to_zero(pages, pins, &target, range.offset, range.len) {
        Ok(asked) => has_held(pages, target.koid, asked.pages),
        Err(_) => false,
    }
}

fn decommit_wants(pages: &FlatStore, vmos: &VmoTable, pins: &PinTable, range: NameRange) -> bool
    requires { AreTogether (flat_content pages.now) vmos.now pins.now }
    ensures { (s : State) → result ≡ may_lack (with_tables s (flat_content pages.now) vmos.now pins.now) (Command.VmoDecommit range.name range.offset range.len) }
{
    let Some(target) = vmos.resolve(range.name) else {
        return false;
    };
    match ask_to_decommit(pages, vmos, pins, &target, range.offset, range.len) {
        Ok(at) => has_held(pages, target.koid, touched_by(at, range.len)),
        Err(_) => false,
    }
}

// Whether one of these pages of a VMO is not sole.
fn has_shared(pages: &FlatStore, koid: Koid, touched: TouchedPages) -> bool
    requires { touched.first ≤ touched.end }
    ensures { result ≡ list_any (λ p. not (sole (flat_content pages.now) koid.0 p)) (touched_row touched) }
{
    for page in touched.first..touched.end {
        if !pages.is_sole(koid, page) {
            return true;
        }
    }
    false
}

// Whether one of these pages of a VMO is held.
fn has_held(pages: &FlatStore, koid: Koid, touched: TouchedPages) -> bool
    requires vmo { IsSome ((flat_content pages.now).count koid.0) }
    requires order { touched.first ≤ touched.end }
    ensures { result ≡ list_any (is_held (flat_content pages.now) koid.0) (touched_row touched) }
{
    match pages.next_held(koid, touched.first) {
        Some(page) => page < touched.end,
        None => false,
    }
}

/// Returns whether a command on a pin may want memory.
pub(crate) fn pin_wants(
    pages: &FlatStore,
    vmos: &VmoTable,
    pins: &PinTable,
    call: &Call<'_>,
) -> bool
    requires group { group_of call.now ≡ Group.Pin }
    requires parts { AreTogether (flat_content pages.now) vmos.now pins.now }
    ensures { (s : State) → result ≡ may_lack (with_tables s (flat_content pages.now) vmos.now pins.now) call.now }
{
    match call {
        Call::VmoPin {
            pin,
            name,
            offset,
            len,
        } => {
            let range = NameRange::new(*name, *offset, *len);
            new_pin_wants(pages, vmos, pins, PinRequest { pin: *pin, range })
        }
        _ => false,
    }
}

fn new_pin_wants(pages: &FlatStore, vmos: &VmoTable, pins: &PinTable, request: PinRequest) -> bool
    requires { AreTogether (flat_content pages.now) vmos.now pins.now }
    ensures { (s : State) → result ≡ may_lack (with_tables s (flat_content pages.now) vmos.now pins.now)
        (Command.VmoPin request.pin request.range.name request.range.offset request.range.len) }
{
    let Some(target) = vmos.resolve(request.range.name) else {
        return false;
    };
    if pins.get(request.pin).is_some() {
        return false;
    }
    ask_to_pin(pages, &target, request.range.offset, request.range.len).is_ok()
}

/// Returns whether a command on a region, or on the mappings in one, may want memory.
pub(crate) fn region_wants(
    pages: &FlatStore,
    vmos: &VmoTable,
    regions: &Regions,
    maps: &MappingSet,
    call: &Call<'_>,
) -> bool
    requires group { group_of call.now ≡ Group.Region }
    requires parts { AreParts (flat_content pages.now) vmos.now }
    requires noted { AreNoted (regions_of regions.now) (places_of maps.now) }
    ensures { (s : State) → result ≡ may_lack (with_all s (flat_content pages.now) vmos.now
        (spaces_of (regions_of regions.now) (table_of maps.now))) call.now }
{
    match region_command(call) {
        RegionCommand::Create(region) => regions.get(region).is_none(),
        RegionCommand::Allocate(region, request) => allocate_wants(regions, maps, region, request),
        RegionCommand::Map(request) => map_wants(pages, vmos, regions, maps, request),
        RegionCommand::Unmap(range) => unmap_wants(regions, maps, range),
        RegionCommand::Protect(range, perm) => protect_wants(regions, maps, range, perm),
        RegionCommand::Destroy(_) => false,
        RegionCommand::List(region) => list_wants(regions, maps, region),
    }
}

fn allocate_wants(
    regions: &Regions,
    maps: &MappingSet,
    name: RegionName,
    request: AllocateRequest,
) -> bool
    requires { AreNoted (regions_of regions.now) (places_of maps.now) }
    ensures { (s : State) → result ≡ may_lack (with_spaces s (spaces_of (regions_of regions.now) (table_of maps.now)))
        (Command.VmarAllocate name request.parent request.offset request.len request.flags request.caps) }
{
    let Some(above) = regions.get(request.parent) else {
        return false;
    };
    if regions.get(name).is_some() {
        return false;
    }
    if !above.live {
        return false;
    }
    let searched = SearchedRegion {
        region: above,
        noted: true,
    };
    ask_to_allocate(regions, maps, searched, request).is_ok()
}

fn map_wants(
    pages: &FlatStore,
    vmos: &VmoTable,
    regions: &Regions,
    maps: &MappingSet,
    request: MapRequest<VmoName>,
) -> bool
    requires parts { AreParts (flat_content pages.now) vmos.now }
    requires noted { AreNoted (regions_of regions.now) (places_of maps.now) }
    ensures { (s : State) → result ≡ may_lack (with_all s (flat_content pages.now) vmos.now
        (spaces_of (regions_of regions.now) (table_of maps.now)))
        (Command.VmarMap request.region request.offset request.mapped request.vmo_offset request.len request.perm request.flags) }
{
    let Some(target) = vmos.resolve(request.mapped) else {
        return false;
    };
    let above = match ask_for_region(regions, request.region) {
        Ok(above) => above,
        Err(_) => return false,
    };
    let searched = SearchedRegion {
        region: above,
        noted: true,
    };
    ask_to_map(pages, regions, maps, searched, request.of(target)).is_ok()
}

fn unmap_wants(regions: &Regions, maps: &MappingSet, range: RegionRange) -> bool
    ensures { (s : State) → result ≡ may_lack (with_spaces s (spaces_of (regions_of regions.now) (table_of maps.now)))
        (Command.VmarUnmap range.region range.addr range.len) }
{
    let above = match ask_for_region(regions, range.region) {
        Ok(above) => above,
        Err(_) => return false,
    };
    match ask_to_unmap(regions, above, range) {
        Ok(pages) => is_mapped_in(maps, above.root, pages.first, pages.count),
        Err(_) => false,
    }
}

fn protect_wants(regions: &Regions, maps: &MappingSet, range: RegionRange, perm: Perm) -> bool
    ensures { (s : State) → result ≡ may_lack (with_spaces s (spaces_of (regions_of regions.now) (table_of maps.now)))
        (Command.VmarProtect range.region range.addr range.len perm) }
{
    let above = match ask_for_region(regions, range.region) {
        Ok(above) => above,
        Err(_) => return false,
    };
    ask_to_protect(regions, maps, above, range, perm).is_ok()
}

fn list_wants(regions: &Regions, maps: &MappingSet, region: RegionName) -> bool
    ensures { (s : State) → result ≡ may_lack (with_spaces s (spaces_of (regions_of regions.now) (table_of maps.now))) (Command.Maps region) }
{
    match ask_for_region(regions, region) {
        Ok(listed) => is_mapped_in(maps, listed.root, listed.first, listed.count),
        Err(_) => false,
    }
}

/// Returns whether an access through mappings may want memory.
pub(crate) fn memory_wants(
    pages: &FlatStore,
    regions: &Regions,
    maps: &MappingSet,
    ready: &ReadyMap,
    call: &Call<'_>,
) -> bool
    requires group { group_of call.now ≡ Group.Memory }
    requires backed { AreBacked (flat_content pages.now) (table_of maps.now) }
    ensures { (s : State) → result ≡ may_want (record {
      state = record s { content = flat_content pages.now; spaces = spaces_of (regions_of regions.now) (table_of maps.now) };
      ready = ready_by ready.now;
    }) call.now }
{
    match call {
        Call::MemRead { region, addr, len } => {
            match refusal_to_read(pages, regions, maps, *region, *addr, *len) {
                Some(_) => false,
                None => wants_memory_to_read(ready, *region, *addr, *len),
            }
        }
        Call::MemWrite {
            region,
            addr,
            bytes,
        } => {
            let written = bytes.as_slice();
            match refusal_to_write(pages, regions, maps, *region, *addr, written) {
                Some(_) => false,
                None => wants_memory_to_write(ready, *region, *addr, written),
            }
        }
        _ => unreachable!(),
    }
}
