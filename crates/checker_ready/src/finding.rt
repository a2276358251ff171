//! What an access finds: the entries of the pages that it touches, or what refuses it. Nothing changes.

ghost use Rattle.std.specs.Prelude.{◌≡◌, ◌≤◌, None, Some, MatchResult};
ghost use Rattle.vm_base.specs.declared.limits.TheConstants.{DATA_BYTES};
ghost use Rattle.vm_model.specs.Contents.Writing.{touched};
ghost use Rattle.vm_model.specs.Machine.Access.{refusal_at, access_refusal};
ghost use Rattle.vm_model.specs.Machine.Refusals.{read_refusals, write_refusals, first_of};
ghost use Rattle.mapping_set.specs.Tables.{table_of};
ghost use Rattle.mapping_set.specs.Backed.{AreBacked};
ghost use Rattle.page_store.specs.Flat.{flat_content};
ghost use Rattle.checker_ready.specs.inside.Pages.{IsMappedInside, FindsTouched};

use crate::needing::frames_to_own;
use crate::touching::Touched;
use bitflags::Flags;
use mapping_set::MappingSet;
use page_store::{FlatStore, PageStore};
use vm_base::{PAGE, PageNo, Perm, Refusal, RegionName, in_page, page_of};
use vm_model::Entry;

/// Finds the entries of the pages that a read of `len` bytes touches, or what refuses it on them.
pub(crate) fn find_readable(
    pages: &FlatStore,
    maps: &MappingSet,
    region: RegionName,
    addr: u64,
    len: u64,
) -> Result<Touched<Entry>, Refusal>
    requires backed { AreBacked (flat_content pages.now) (table_of maps.now) }
    requires len { len ≤ DATA_BYTES }
    ensures { FindsTouched (flat_content pages.now) (table_of maps.now) region.0 addr len
        (first_of (read_refusals (flat_content pages.now) (table_of maps.now region.0) (touched addr len))) result }
{
    find(pages, maps, region, addr, len, Perm::READ)
}

/// Finds the entries of the pages that a write of `len` bytes touches, or what refuses it on them. They are two at most, so the
/// frames that it takes are counted only if fewer than two are free.
pub(crate) fn find_writable(
    pages: &FlatStore,
    maps: &MappingSet,
    region: RegionName,
    addr: u64,
    len: u64,
) -> Result<Touched<Entry>, Refusal>
    requires backed { AreBacked (flat_content pages.now) (table_of maps.now) }
    requires len { len ≤ DATA_BYTES }
    ensures { FindsTouched (flat_content pages.now) (table_of maps.now) region.0 addr len
        (first_of (write_refusals (flat_content pages.now) (table_of maps.now region.0) (touched addr len))) result }
{
    let found = match find(pages, maps, region, addr, len, Perm::WRITE) {
        Ok(found) => found,
        Err(refusal) => return Err(refusal),
    };
    let free = pages.free() as u64;
    if free >= 2 {
        return Ok(found);
    }
    if frames_to_own(pages, found) > free {
        return Err(Refusal::NoMemory);
    }
    Ok(found)
}

// Finds the entries of the pages that an access to `len` bytes touches, or what refuses it. It needs this right. The first
// page on which it is refused decides.
fn find(
    pages: &FlatStore,
    maps: &MappingSet,
    region: RegionName,
    addr: u64,
    len: u64,
    right: Perm,
) -> Result<Touched<Entry>, Refusal>
    requires backed { AreBacked (flat_content pages.now) (table_of maps.now) }
    requires len { len ≤ DATA_BYTES }
    ensures { FindsTouched (flat_content pages.now) (table_of maps.now) region.0 addr len
        (access_refusal (flat_content pages.now) right.0 (table_of maps.now region.0) (touched addr len)) result }
{
    if len == 0 {
        return Ok(Touched::No);
    }
    let page = page_of(addr);
    let first = match find_page(pages, maps, region, page, right) {
        Ok(entry) => entry,
        Err(refusal) => return Err(refusal),
    };
    if in_page(addr) + len <= PAGE {
        return Ok(Touched::One(first));
    }
    match find_page(pages, maps, region, page + 1, right) {
        Ok(second) => Ok(Touched::Two(first, second)),
        Err(refusal) => Err(refusal),
    }
}

// Finds the entry of a page, or what refuses an access there that needs this right.
#[tactic(auto, using(vm_model::proofs::ThroughLaws::check_laws), unfolding(vm_model::specs::Machine::Access::refusal_at))]
fn find_page(
    pages: &FlatStore,
    maps: &MappingSet,
    region: RegionName,
    page: PageNo,
    right: Perm,
) -> Result<Entry, Refusal>
    requires { AreBacked (flat_content pages.now) (table_of maps.now) }
    ensures { MatchResult result
        (λ entry. (None ≡ refusal_at (flat_content pages.now) right.0 (table_of maps.now region.0 page))
        × IsMappedInside (flat_content pages.now) (table_of maps.now) region.0 page entry)
        (λ refusal. Some refusal ≡ refusal_at (flat_content pages.now) right.0 (table_of maps.now region.0 page)) }
{
    let Some(entry) = maps.at(region, page) else {
        return Err(Refusal::NotFound);
    };
    if !entry.perm.contains(right) {
        return Err(Refusal::AccessDenied);
    }
    if entry.page >= pages.count(entry.koid) {
        return Err(Refusal::OutOfRange);
    }
    Ok(entry)
}
