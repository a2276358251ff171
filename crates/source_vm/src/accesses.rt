//! Accesses to the pages of VMOs: reading, writing, supplying and evicting.

ghost use Rattle.std.specs.Prelude.{◌≡◌, ◌↔◌, ◌+◌, ◌*◌, ◌/◌, ◌<◌, ◌≤◌, ◌&&◌, [], ◌∷◌, map, length, IsTrue, IsSome, Some, IfOk, IfErr};
ghost use Rattle.vm_model.specs.Contents.Content.{pages_of, IsGood};
ghost use Rattle.vm_model.specs.Machine.Refusals.{first_of};
ghost use Rattle.source_model.specs.declared.command.SourceCommand.TheVariants as SourceCommand;
ghost use Rattle.source_model.specs.Commands.{SourceStep, is_aligned, source_refusals};
ghost use Rattle.source_vm.specs.Pages.{IsRangeOfPages};
ghost use Rattle.source_vm.specs.Table.{SourcesAgree, source_state_of};

use crate::ranges::{evict_pages, read_range, supply_pages, write_pages};
use crate::source_fn::SourceFn;
use crate::table::{SourceTable, find};
use crate::walk::Stretch;
use page_store::PageStore;
use source_model::Backing;
use vm_base::{DATA_BYTES, Koid, PAGE, Refusal, VmoName, in_page, page_of};
use vm_model::{Answer, LentBytes};
use vmo_ops::{NameRange, touched_pages};

/// Returns whether a range lies inside a VMO. An offset and a length whose sum passes 2^64 do not.
fn is_in_range<P: PageStore>(store: &P, v: Koid, offset: u64, len: u64) -> bool
    requires good { IsGood (P.content store.now) }
    requires vmo { IsSome ((P.content store.now).count v.0) }
    ensures { IsTrue result ↔ (offset + len ≤ pages_of (P.content store.now) v.0 * PAGE) }
{
    let bytes = store.count(v) * PAGE;
    len <= bytes && offset <= bytes - len
}

/// Returns whether an offset and a length are whole pages.
fn are_aligned(offset: u64, len: u64) -> bool
    ensures { result ≡ (is_aligned offset && is_aligned len) }
{
    in_page(offset) == 0 && in_page(len) == 0
}

/// Reads the bytes of a range, at most `DATA_BYTES`, into `room`, and lends them. The absent pages at which the look-ups of the touched pages end
/// are supplied.
pub(crate) fn read<'a, P: PageStore>(
    store: &mut P,
    table: &SourceTable,
    functions: &[SourceFn; 3],
    range: NameRange,
    room: &'a mut [u8],
) -> Answer<'a>
    requires kinds { map (λ f. f.kind) functions.now ≡ 0 ∷ 1 ∷ 2 ∷ [] }
    requires agrees { SourcesAgree (P.content store.old) table.now }
    requires room { DATA_BYTES ≤ length room.old }
    ensures { SourceStep (source_state_of (P.content store.old) table.now) (SourceCommand.Read range.name range.offset range.len)
        result (source_state_of (P.content store.new) table.now) }
{
    let Some(v) = find(table, range.name) else {
        return Answer::Refused(Refusal::BadHandle);
    };
    if range.len > DATA_BYTES as u64 {
        return Answer::Refused(Refusal::InvalidArgs);
    }
    if !is_in_range(store, v, range.offset, range.len) {
        return Answer::Refused(Refusal::OutOfRange);
    }
    let out = &mut room[..range.len as usize];
    match read_range(store, table, functions, v, range.offset, out) {
        Ok(()) => Answer::Bytes(LentBytes::new(out)),
        Err(refusal) => Answer::Refused(refusal),
    }
}

/// Writes bytes. Each page that they touch is filled, if it is not held.
pub(crate) fn write<'a, P: PageStore>(
    store: &mut P,
    table: &SourceTable,
    functions: &[SourceFn; 3],
    name: VmoName,
    offset: u64,
    bytes: &[u8],
) -> Answer<'a>
    requires kinds { map (λ f. f.kind) functions.now ≡ 0 ∷ 1 ∷ 2 ∷ [] }
    requires agrees { SourcesAgree (P.content store.old) table.now }
    ensures { SourceStep (source_state_of (P.content store.old) table.now) (SourceCommand.Write name offset bytes.now)
        result (source_state_of (P.content store.new) table.now) }
{
    let Some(v) = find(table, name) else {
        return Answer::Refused(Refusal::BadHandle);
    };
    if !is_in_range(store, v, offset, bytes.len() as u64) {
        return Answer::Refused(Refusal::OutOfRange);
    }
    match write_pages(store, table, functions, v, offset, bytes) {
        Ok(()) => Answer::Done,
        Err(refusal) => Answer::Refused(refusal),
    }
}

/// Returns the VMO of a name and its backing, if a range of whole pages lies inside the VMO. `BadHandle` if the name is not
/// open, else `InvalidArgs` if the offset or the length is not of whole pages, else `NotSupported` if the VMO is loose, else
/// `OutOfRange`.
fn whole_pages<P: PageStore>(
    store: &P,
    table: &SourceTable,
    range: NameRange,
) -> Result<(Koid, Backing), Refusal>
    requires agrees { SourcesAgree (P.content store.now) table.now }
    ensures ok { IfOk result (λ r. IsRangeOfPages (source_state_of (P.content store.now) table.now) range.name.0 range.offset range.len r.0.0 r.1) }
    ensures err { IfErr result (λ refusal.
        first_of (source_refusals (source_state_of (P.content store.now) table.now) (SourceCommand.Evict range.name range.offset range.len)) ≡ Some refusal) }
{
    let Some(v) = find(table, range.name) else {
        return Err(Refusal::BadHandle);
    };
    if !are_aligned(range.offset, range.len) {
        return Err(Refusal::InvalidArgs);
    }
    let Some(backing) = table.backings.find(0, v.0) else {
        return Err(Refusal::NotSupported);
    };
    if !is_in_range(store, v, range.offset, range.len) {
        return Err(Refusal::OutOfRange);
    }
    Ok((v, backing))
}

/// Supplies the absent pages of a range of whole pages of a VMO that is not loose.
pub(crate) fn supply<'a, P: PageStore>(
    store: &mut P,
    table: &SourceTable,
    functions: &[SourceFn; 3],
    range: NameRange,
) -> Answer<'a>
    requires kinds { map (λ f. f.kind) functions.now ≡ 0 ∷ 1 ∷ 2 ∷ [] }
    requires agrees { SourcesAgree (P.content store.old) table.now }
    ensures { SourceStep (source_state_of (P.content store.old) table.now) (SourceCommand.Supply range.name range.offset range.len)
        result (source_state_of (P.content store.new) table.now) }
{
    let found = match whole_pages(store, table, range) {
        Ok(found) => found,
        Err(refusal) => return Answer::Refused(refusal),
    };
    let (first, end) = touched_pages(range.offset, range.len);
    let pages = Stretch {
        koid: found.0,
        first,
        end,
    };
    match supply_pages(store, table, functions, &found.1, pages) {
        Ok(()) => Answer::Done,
        Err(refusal) => Answer::Refused(refusal),
    }
}

/// Drops the clean pages of a range of whole pages of a VMO that is not loose.
pub(crate) fn evict<'a, P: PageStore>(
    store: &mut P,
    table: &SourceTable,
    functions: &[SourceFn; 3],
    range: NameRange,
) -> Answer<'a>
    requires kinds { map (λ f. f.kind) functions.now ≡ 0 ∷ 1 ∷ 2 ∷ [] }
    requires agrees { SourcesAgree (P.content store.old) table.now }
    ensures { SourceStep (source_state_of (P.content store.old) table.now) (SourceCommand.Evict range.name range.offset range.len)
        result (source_state_of (P.content store.new) table.now) }
{
    let found = match whole_pages(store, table, range) {
        Ok(found) => found,
        Err(refusal) => return Answer::Refused(refusal),
    };
    let (first, end) = (page_of(range.offset), page_of(range.offset + range.len));
    match evict_pages(store, functions, &found.1, found.0, first, end) {
        Ok(()) => Answer::Done,
        Err(_) => Answer::Refused(Refusal::HostMemory),
    }
}
