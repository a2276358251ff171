//! VMOs that come.

ghost use Rattle.std.specs.Prelude.{◌≡◌, ◌+◌, ◌/◌, ◌^◌, ◌<◌, ◌≤◌, ◌==◌, if◌then◌else◌, IfSome, IfNone};
ghost use Rattle.vm_base.specs.Pages.{rounded};
ghost use Rattle.vm_base.specs.declared.limits.TheConstants.{PAGE, SOURCE_BYTES};
ghost use Rattle.source_model.specs.declared.command.SourceCommand.TheVariants as SourceCommand;
ghost use Rattle.source_model.specs.Commands.{SourceStep};
ghost use Rattle.source_model.specs.State.{moved, seen_of};
ghost use Rattle.source_vm.specs.Table.{SourcesAgree, IsIndexed, source_state_of};

use crate::table::{SourceTable, enter_backing, enter_link, enter_name, find, reserve};
use page_store::PageStore;
use source_model::{Backing, Link};
use vm_base::{
    KOIDS, PageNo, Refusal, SOURCE_BYTES, SOURCE_KIND_MAX, VmoName, in_page, page_of, round_up,
};
use vm_model::Answer;

/// Makes a VMO whose pages come from a source, and lets a name stand for it.
pub(crate) fn create<'a, P: PageStore>(
    store: &mut P,
    table: &mut SourceTable,
    name: VmoName,
    size: u64,
    kind: u64,
    seed: u64,
) -> Answer<'a>
    requires agrees { SourcesAgree (P.content store.old) table.old }
    requires next { (P.content store.old).next < KOIDS }
    ensures step { SourceStep (source_state_of (P.content store.old) table.old) (SourceCommand.Create name size kind seed)
        result (source_state_of (P.content store.new) table.new) }
    ensures indexed { IsIndexed table.new }
{
    if find(table, name).is_some() {
        return Answer::Refused(Refusal::NameInUse);
    }
    if kind > SOURCE_KIND_MAX {
        return Answer::Refused(Refusal::InvalidArgs);
    }
    let Some(bytes) = round_up(size, SOURCE_BYTES) else {
        return Answer::Refused(Refusal::OutOfRange);
    };
    let Ok(()) = reserve(table) else {
        return Answer::Refused(Refusal::HostMemory);
    };
    let pages = page_of(bytes);
    let Ok(v) = store.create(pages) else {
        return Answer::Refused(Refusal::HostMemory);
    };
    enter_name(table, name, v);
    let backing = Backing {
        kind: kind as u8,
        seed,
        base: 0,
        seen: pages,
    };
    enter_backing(table, v, backing);
    Answer::Done
}

/// Makes a snapshot of a VMO that is not loose, and lets a name stand for it.
pub(crate) fn child<'a, P: PageStore>(
    store: &mut P,
    table: &mut SourceTable,
    name: VmoName,
    parent: VmoName,
    offset: u64,
    size: u64,
) -> Answer<'a>
    requires agrees { SourcesAgree (P.content store.old) table.old }
    requires next { (P.content store.old).next < KOIDS }
    ensures step { SourceStep (source_state_of (P.content store.old) table.old) (SourceCommand.Child name parent offset size)
        result (source_state_of (P.content store.new) table.new) }
    ensures indexed { IsIndexed table.new }
{
    let Some(of) = find(table, parent) else {
        return Answer::Refused(Refusal::BadHandle);
    };
    if find(table, name).is_some() {
        return Answer::Refused(Refusal::NameInUse);
    }
    if in_page(offset) != 0 {
        return Answer::Refused(Refusal::InvalidArgs);
    }
    let Some(backing) = table.backings.find(0, of.0) else {
        return Answer::Refused(Refusal::NotSupported);
    };
    let Some(pages) = pages_behind(offset, size) else {
        return Answer::Refused(Refusal::OutOfRange);
    };
    let Ok(()) = reserve(table) else {
        return Answer::Refused(Refusal::HostMemory);
    };
    let start = page_of(offset);
    let seen = seen_pages(store.count(of), start, pages);
    let Ok(v) = store.snapshot(of, first_of(start, seen), seen, pages) else {
        return Answer::Refused(Refusal::HostMemory);
    };
    enter_name(table, name, v);
    enter_backing(table, v, moved(&backing, start, pages));
    Answer::Done
}

/// Makes a loose child of a VMO, of which no page is held, and lets a name stand for it.
pub(crate) fn loose<'a, P: PageStore>(
    store: &mut P,
    table: &mut SourceTable,
    name: VmoName,
    parent: VmoName,
    offset: u64,
    size: u64,
) -> Answer<'a>
    requires agrees { SourcesAgree (P.content store.old) table.old }
    requires next { (P.content store.old).next < KOIDS }
    ensures step { SourceStep (source_state_of (P.content store.old) table.old) (SourceCommand.Loose name parent offset size)
        result (source_state_of (P.content store.new) table.new) }
    ensures indexed { IsIndexed table.new }
{
    let Some(of) = find(table, parent) else {
        return Answer::Refused(Refusal::BadHandle);
    };
    if find(table, name).is_some() {
        return Answer::Refused(Refusal::NameInUse);
    }
    if in_page(offset) != 0 {
        return Answer::Refused(Refusal::InvalidArgs);
    }
    let Some(pages) = pages_behind(offset, size) else {
        return Answer::Refused(Refusal::OutOfRange);
    };
    let Ok(()) = reserve(table) else {
        return Answer::Refused(Refusal::HostMemory);
    };
    let start = page_of(offset);
    let seen = seen_pages(store.count(of), start, pages);
    let Ok(v) = store.create(pages) else {
        return Answer::Refused(Refusal::HostMemory);
    };
    enter_name(table, name, v);
    let link = Link {
        parent: of,
        base: start,
        seen,
    };
    enter_link(table, v, link);
    Answer::Done
}

/// Returns the number of pages that `size` bytes take, if they end within `SOURCE_BYTES` behind `offset`.
fn pages_behind(offset: u64, size: u64) -> Option<PageNo>
    ensures some { IfSome result (λ pages. (pages ≡ rounded size / PAGE) × (offset + rounded size ≤ SOURCE_BYTES)) }
    ensures none { IfNone result (SOURCE_BYTES < offset + rounded size) }
{
    let bytes = round_up(size, SOURCE_BYTES)?;
    if offset <= SOURCE_BYTES - bytes {
        Some(page_of(bytes))
    } else {
        None
    }
}

/// Returns how many of `have` pages a child of `pages` pages sees from page `start` on.
fn seen_pages(have: u64, start: PageNo, pages: u64) -> u64
    ensures { result ≡ seen_of have start pages }
{
    pages.min(have.saturating_sub(start))
}

/// Returns the first page that a child shows of its parent: 0 if it shows none.
fn first_of(start: PageNo, seen: u64) -> PageNo
    ensures { result ≡ (if seen == 0 then 0 else start) }
{
    if seen == 0 { 0 } else { start }
}

/// Returns the backing of a child: that of its parent, from page `start` on.
#[tactic(auto, unfolding(source_model::specs::State::moved))]
fn moved(backing: &Backing, start: PageNo, pages: u64) -> Backing
    requires { backing.now.base + start < 2 ^ 64 }
    ensures { result ≡ moved start pages backing.now }
{
    let seen = seen_pages(backing.seen, start, pages);
    let base = if seen == 0 { 0 } else { backing.base + start };
    Backing {
        kind: backing.kind,
        seed: backing.seed,
        base,
        seen,
    }
}
