//! What refuses an access, and whether it may want memory of the host. Nothing changes.

ghost use Rattle.std.specs.Prelude.{◌≡◌, ◌≤◌, length};
ghost use Rattle.std.specs.List.{list_any};
ghost use Rattle.vm_base.specs.declared.limits.TheConstants.{DATA_BYTES};
ghost use Rattle.vm_model.specs.declared.command.Command.TheVariants as Command;
ghost use Rattle.vm_model.specs.Contents.Writing.{touched};
ghost use Rattle.vm_model.specs.Machine.Machine.{Machine};
ghost use Rattle.vm_model.specs.Machine.MachineStep.{may_want_memory};
ghost use Rattle.vm_model.specs.Machine.State.{State};
ghost use Rattle.mapping_set.specs.Tables.{table_of};
ghost use Rattle.mapping_set.specs.Backed.{AreBacked};
ghost use Rattle.region_tree.specs.Tree.{regions_of, spaces_of};
ghost use Rattle.page_store.specs.Flat.{flat_content};
ghost use Rattle.checker_ready.specs.Notes.{rows_of, ready_in};
ghost use Rattle.checker_ready.specs.Accesses.{IsAccessRefusal};
ghost use Rattle.checker_ready.specs.inside.Pages.{is_unready};

use crate::finding::{find_readable, find_writable};
use crate::ready_map::ReadyMap;
use crate::touching::is_unready;
use mapping_set::MappingSet;
use page_store::FlatStore;
use region_tree::Regions;
use vm_base::{DATA_BYTES, PAGE, Refusal, RegionName, in_page, page_of};
use vm_model::Readiness;

/// Returns the refusal to read `len` bytes from an address on through the mappings of a root region, in this order:
///
/// - `BadHandle` if the region's name was never given;
/// - `BadState` if the region is dead;
/// - `InvalidArgs` if it is no root region, or `len` is over `DATA_BYTES`;
/// - what refuses it on the first page on which it is refused: `NotFound` if nothing is mapped there, `AccessDenied` if the
///   mapping may not be read, `OutOfRange` if the page that it shows lies past the end of the VMO.
#[tactic(auto, unfolding(vm_model::specs::Space::Regions::region_of))]
pub fn refusal_to_read(
    pages: &FlatStore,
    regions: &Regions,
    maps: &MappingSet,
    region: RegionName,
    addr: u64,
    len: u64,
) -> Option<Refusal>
    requires { AreBacked (flat_content pages.now) (table_of maps.now) }
    ensures { IsAccessRefusal (flat_content pages.now) (spaces_of (regions_of regions.now) (table_of maps.now))
        (Command.MemRead region addr len) result }
{
    let Some(root) = regions.get(region) else {
        return Some(Refusal::BadHandle);
    };
    if !root.live {
        return Some(Refusal::BadState);
    }
    if root.parent.is_some() || len > DATA_BYTES as u64 {
        return Some(Refusal::InvalidArgs);
    }
    match find_readable(pages, maps, region, addr, len) {
        Ok(_) => None,
        Err(refusal) => Some(refusal),
    }
}

/// Returns the refusal to write bytes, at most `DATA_BYTES`, from an address on through the mappings of a root region, in
/// this order:
///
/// - `BadHandle` if the region's name was never given;
/// - `BadState` if the region is dead;
/// - `InvalidArgs` if it is no root region;
/// - what refuses it on the first page on which it is refused: `NotFound` if nothing is mapped there, `AccessDenied` if the
///   mapping may not be written, `OutOfRange` if the page that it shows lies past the end of the VMO;
/// - `NoMemory` if fewer frames are free than it takes to own the pages that are shown.
#[tactic(auto, unfolding(vm_model::specs::Space::Regions::region_of))]
pub fn refusal_to_write(
    pages: &FlatStore,
    regions: &Regions,
    maps: &MappingSet,
    region: RegionName,
    addr: u64,
    bytes: &[u8],
) -> Option<Refusal>
    requires backed { AreBacked (flat_content pages.now) (table_of maps.now) }
    requires len { length bytes.now ≤ DATA_BYTES }
    ensures { IsAccessRefusal (flat_content pages.now) (spaces_of (regions_of regions.now) (table_of maps.now))
        (Command.MemWrite region addr bytes.now) result }
{
    let Some(root) = regions.get(region) else {
        return Some(Refusal::BadHandle);
    };
    if !root.live {
        return Some(Refusal::BadState);
    }
    if root.parent.is_some() {
        return Some(Refusal::InvalidArgs);
    }
    match find_writable(pages, maps, region, addr, bytes.len() as u64) {
        Ok(_) => None,
        Err(refusal) => Some(refusal),
    }
}

/// Returns whether a read of `len` bytes, at most `DATA_BYTES`, may want memory of the host: some page that it touches is
/// not ready.
pub fn wants_memory_to_read(ready: &ReadyMap, region: RegionName, addr: u64, len: u64) -> bool
    requires { len ≤ DATA_BYTES }
    ensures { (s : State) → result ≡ may_want_memory (record { state = s; ready = ready_in (rows_of ready.now) })
        (Command.MemRead region addr len) }
{
    wants_memory(ready, region, addr, len, Readiness::Read)
}

/// Returns whether a write of bytes, at most `DATA_BYTES`, may want memory of the host: some page that it touches is not
/// ready for writing.
pub fn wants_memory_to_write(ready: &ReadyMap, region: RegionName, addr: u64, bytes: &[u8]) -> bool
    requires { length bytes.now ≤ DATA_BYTES }
    ensures { (s : State) → result ≡ may_want_memory (record { state = s; ready = ready_in (rows_of ready.now) })
        (Command.MemWrite region addr bytes.now) }
{
    wants_memory(ready, region, addr, bytes.len() as u64, Readiness::Write)
}

// Whether some page that an access to `len` bytes touches is not ready for it.
fn wants_memory(
    ready: &ReadyMap,
    region: RegionName,
    addr: u64,
    len: u64,
    wanted: Readiness,
) -> bool
    requires { len ≤ DATA_BYTES }
    ensures { result ≡ list_any (λ p. is_unready wanted (ready_in (rows_of ready.now) region.0 p)) (touched addr len) }
{
    if len == 0 {
        return false;
    }
    let page = page_of(addr);
    if in_page(addr) + len <= PAGE {
        return is_unready(ready, region, page, wanted);
    }
    if is_unready(ready, region, page, wanted) {
        return true;
    }
    is_unready(ready, region, page + 1, wanted)
}
