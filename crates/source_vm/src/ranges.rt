//! Ranges of pages of one VMO: supplying, writing and evicting.

ghost use Rattle.std.specs.Prelude.{◌≡◌, ℕ, ◌+◌, ◌-◌, ◌*◌, ◌/◌, ◌<◌, ◌≤◌, true, false, [], ◌∷◌, map, length, Some, None, IsSome, IfSome, IfNone, IfErr, OnOk, OnErr};
ghost use Rattle.std.specs.List.{filter, range_with_len};
ghost use Rattle.vm_base.specs.Search.{any_from, IsFirstOrNone};
ghost use Rattle.vm_model.specs.Contents.Content.{pages_of, used, IsGood};
ghost use Rattle.vm_model.specs.Contents.Owning.{need};
ghost use Rattle.vm_model.specs.Contents.Writing.{touched, pieces};
ghost use Rattle.vmo_ops.specs.Costs.{HasRows};
ghost use Rattle.source_model.specs.State.{is_absent, text_in};
ghost use Rattle.source_vm.specs.Pages.{FillsPages, IsReadable, IsSource, FillsPage, IsSupplied, LacksFrames, absent_ends, absent_touched, cleared, lookup_end, end_piece, is_clean_at, is_end_absent};
ghost use Rattle.source_vm.specs.Table.{backings_of, loose_links_of, source_state_of};

use crate::page_bytes::{fill_page, is_clean, read_shown};
use crate::source_fn::SourceFn;
use crate::table::SourceTable;
use crate::walk::{FoundPage, Place, Stretch, find_end, is_absent};
use page_store::PageStore;
use source_model::Backing;
use vm_base::{HostMemory, Koid, PAGE, PageNo, Refusal};
use vmo_ops::{part_in_page, reserve_rows, reserve_to_own, touched_pages};

/// Returns the end of those pages from `first` to below `end` that come from a source: `first` if none does.
fn seen_end(backing: &Backing, first: PageNo, end: PageNo) -> PageNo
    requires { first ≤ end }
    ensures first { first ≤ result }
    ensures end { result ≤ end }
    ensures seen { (p : ℕ) → first ≤ p → p < result → p < backing.now.seen }
    ensures behind { (p : ℕ) → result ≤ p → p < end → backing.now.seen ≤ p }
{
    end.min(first.max(backing.seen))
}

/// Returns the number of absent pages from `first` to below `end`, all of which come from a source. It goes by the held
/// pages.
fn count_absent<P: PageStore>(
    store: &P,
    backing: &Backing,
    v: Koid,
    first: PageNo,
    end: PageNo,
) -> u64
    requires vmo { IsSome ((P.content store.now).count v.0) }
    requires order { first ≤ end }
    requires seen { (p : ℕ) → first ≤ p → p < end → p < backing.now.seen }
    ensures { result ≡ length (filter (is_absent (P.content store.now) (Some backing.now) v.0) (range_with_len first (end - first))) }
{
    let mut absent = end - first;
    let mut from = first;
    while let Some(page) = store.next_held_below(v, from, end) {
        absent -= 1;
        from = page + 1;
    }
    absent
}

/// Supplies the absent ones of pages of a VMO that is not loose. `NoMemory` where they are more than the free
/// frames, else `HostMemory` only where there is one. The room is made before the first page changes. Pages that come from no source
/// are not looked at, and the absent ones are counted by the held ones.
pub(crate) fn supply_pages<P: PageStore>(
    store: &mut P,
    table: &SourceTable,
    functions: &[SourceFn; 3],
    backing: &Backing,
    pages: Stretch,
) -> Result<(), Refusal>
    requires kinds { map (λ f. f.kind) functions.now ≡ 0 ∷ 1 ∷ 2 ∷ [] }
    requires readable { IsReadable (P.content store.old) (backings_of table.now) (loose_links_of table.now) }
    requires backed { backings_of table.now pages.koid.0 ≡ Some backing.now }
    requires vmo { IsSome ((P.content store.old).count pages.koid.0) }
    requires order { pages.first ≤ pages.end }
    requires inside { pages.end ≤ pages_of (P.content store.old) pages.koid.0 }
    ensures ok { OnOk result (IsSupplied (backings_of table.now) (loose_links_of table.now) pages.koid.0 (P.content store.old) pages.first pages.end (P.content store.new)) }
    ensures free { OnOk result (used (P.content store.old)
        + (length (absent_ends (backings_of table.now) (loose_links_of table.now) (P.content store.old) pages.koid.0 pages.first pages.end))
        ≤ (P.content store.old).frames) }
    ensures same { OnErr result (P.content store.new ≡ P.content store.old) }
    ensures err { IfErr result (LacksFrames (P.content store.old)
        (length (absent_ends (backings_of table.now) (loose_links_of table.now) (P.content store.old) pages.koid.0 pages.first pages.end))) }
{
    let last = seen_end(backing, pages.first, pages.end);
    let need = count_absent(store, backing, pages.koid, pages.first, last);
    let seen = Stretch { end: last, ..pages };
    supply_counted(store, table, functions, seen, need)
}

/// Supplies the absent pages at which the look-ups of these pages end, of which there are `need`. `NoMemory`
/// where they are more than the free frames, else `HostMemory` only where there is one. The room is made before the first page
/// changes.
pub(crate) fn supply_counted<P: PageStore>(
    store: &mut P,
    table: &SourceTable,
    functions: &[SourceFn; 3],
    pages: Stretch,
    need: u64,
) -> Result<(), Refusal>
    requires kinds { map (λ f. f.kind) functions.now ≡ 0 ∷ 1 ∷ 2 ∷ [] }
    requires readable { IsReadable (P.content store.old) (backings_of table.now) (loose_links_of table.now) }
    requires order { pages.first ≤ pages.end }
    requires inside { pages.end ≤ pages_of (P.content store.old) pages.koid.0 }
    requires need { need ≡ length (absent_ends (backings_of table.now) (loose_links_of table.now) (P.content store.old) pages.koid.0 pages.first pages.end) }
    ensures ok { OnOk result (IsSupplied (backings_of table.now) (loose_links_of table.now) pages.koid.0 (P.content store.old) pages.first pages.end (P.content store.new)) }
    ensures free { OnOk result (used (P.content store.old) + need ≤ (P.content store.old).frames) }
    ensures same { OnErr result (P.content store.new ≡ P.content store.old) }
    ensures err { IfErr result (LacksFrames (P.content store.old) need) }
{
    if need > u64::from(store.free()) {
        return Err(Refusal::NoMemory);
    }
    let Ok(()) = reserve_rows(store, need, need) else {
        return Err(Refusal::HostMemory);
    };
    supply_range(store, table, functions, pages);
    Ok(())
}

/// Supplies the absent pages at which the look-ups of these pages end, where the room for it is there.
fn supply_range<P: PageStore>(
    store: &mut P,
    table: &SourceTable,
    functions: &[SourceFn; 3],
    pages: Stretch,
)
    requires kinds { map (λ f. f.kind) functions.now ≡ 0 ∷ 1 ∷ 2 ∷ [] }
    requires readable { IsReadable (P.content store.old) (backings_of table.now) (loose_links_of table.now) }
    requires order { pages.first ≤ pages.end }
    requires inside { pages.end ≤ pages_of (P.content store.old) pages.koid.0 }
    requires rows { length (absent_ends (backings_of table.now) (loose_links_of table.now) (P.content store.old) pages.koid.0 pages.first pages.end)
        ≤ P.spare store.old }
    requires free { used (P.content store.old)
        + (length (absent_ends (backings_of table.now) (loose_links_of table.now) (P.content store.old) pages.koid.0 pages.first pages.end))
        ≤ (P.content store.old).frames }
    ensures { IsSupplied (backings_of table.now) (loose_links_of table.now) pages.koid.0 (P.content store.old) pages.first pages.end (P.content store.new) }
{
    for page in pages.first..pages.end {
        let at = Place {
            koid: pages.koid,
            page,
        };
        supply_end(store, table, functions, at);
    }
}

/// Supplies the page at which a look-up ends, if it is absent, where the room for it is there.
fn supply_end<P: PageStore>(
    store: &mut P,
    table: &SourceTable,
    functions: &[SourceFn; 3],
    at: Place,
)
    requires kinds { map (λ f. f.kind) functions.now ≡ 0 ∷ 1 ∷ 2 ∷ [] }
    requires readable { IsReadable (P.content store.old) (backings_of table.now) (loose_links_of table.now) }
    requires page { at.page < pages_of (P.content store.old) at.koid.0 }
    requires room { is_end_absent (backings_of table.now) (loose_links_of table.now) (P.content store.old) at.koid.0 at.page ≡ true
        → (1 ≤ P.spare store.old) × (used (P.content store.old) < (P.content store.old).frames) }
    ensures absent { is_end_absent (backings_of table.now) (loose_links_of table.now) (P.content store.old) at.koid.0 at.page ≡ true
        → FillsPage (backings_of table.now) (loose_links_of table.now) (P.content store.old)
        (end_piece (loose_links_of table.now) (P.content store.old) at.koid.0 at.page) (P.content store.new)
        × (P.spare store.old ≤ P.spare store.new + 1) }
    ensures other { is_end_absent (backings_of table.now) (loose_links_of table.now) (P.content store.old) at.koid.0 at.page ≡ false
        → store.new ≡ store.old }
    ensures inside { (lookup_end (loose_links_of table.now) (P.content store.old) at.koid.0 at.page).page
        < pages_of (P.content store.old) (lookup_end (loose_links_of table.now) (P.content store.old) at.koid.0 at.page).koid }
{
    let frame = store.frame(at.koid, at.page);
    let end = find_end(store, table, FoundPage { place: at, frame });
    if is_absent(table, end) {
        fill_page(store, table, functions, end, 0, &[]);
    }
}

/// Reads the bytes of a range inside the VMO, `offset` bytes into it, each page at the end of its look-up. The absent pages at which
/// look-ups end are supplied. `NoMemory` where they are more than the free frames, else `HostMemory` only where there is one. The room is
/// made before the first page changes. If none is absent, each page is looked up once.
pub(crate) fn read_range<P: PageStore>(
    store: &mut P,
    table: &SourceTable,
    functions: &[SourceFn; 3],
    v: Koid,
    offset: u64,
    out: &mut [u8],
) -> Result<(), Refusal>
    requires kinds { map (λ f. f.kind) functions.now ≡ 0 ∷ 1 ∷ 2 ∷ [] }
    requires readable { IsReadable (P.content store.old) (backings_of table.now) (loose_links_of table.now) }
    requires inside { offset + length out.old ≤ pages_of (P.content store.old) v.0 * PAGE }
    ensures ok { OnOk result (FillsPages (backings_of table.now) (loose_links_of table.now) (P.content store.old)
        (map (end_piece (loose_links_of table.now) (P.content store.old) v.0)
        (absent_touched (backings_of table.now) (loose_links_of table.now) (P.content store.old) v.0 offset (length out.old))) (P.content store.new)) }
    ensures free { OnOk result (used (P.content store.old)
        + length (absent_touched (backings_of table.now) (loose_links_of table.now) (P.content store.old) v.0 offset (length out.old))
        ≤ (P.content store.old).frames) }
    ensures text { OnOk result (out.new ≡ text_in (source_state_of (P.content store.new) table.now) v.0 offset (length out.old)) }
    ensures same { OnErr result (P.content store.new ≡ P.content store.old) }
    ensures err { IfErr result (LacksFrames (P.content store.old)
        (length (absent_touched (backings_of table.now) (loose_links_of table.now) (P.content store.old) v.0 offset (length out.old)))) }
{
    let len = out.len() as u64;
    let need = read_present(store, table, v, offset, out);
    if need == 0 {
        return Ok(());
    }
    let (first, end) = touched_pages(offset, len);
    let pages = Stretch {
        koid: v,
        first,
        end,
    };
    match supply_counted(store, table, functions, pages, need) {
        Ok(()) => {
            read_supplied(store, table, v, offset, out);
            Ok(())
        }
        Err(refusal) => Err(refusal),
    }
}

/// Reads the bytes of a range inside the VMO, `offset` bytes into it, each page at the end of its look-up, and returns how many of these
/// ends are absent. No bytes are read for these.
#[tactic(auto, using(vm_model::proofs::ContentLaws::pages_of_le))]
fn read_present<P: PageStore>(
    store: &P,
    table: &SourceTable,
    v: Koid,
    offset: u64,
    out: &mut [u8],
) -> u64
    requires readable { IsReadable (P.content store.now) (backings_of table.now) (loose_links_of table.now) }
    requires inside { offset + length out.old ≤ pages_of (P.content store.now) v.0 * PAGE }
    ensures absent { result ≡ length (absent_touched (backings_of table.now) (loose_links_of table.now) (P.content store.now) v.0 offset (length out.old)) }
    ensures read { result ≡ 0 → out.new ≡ text_in (source_state_of (P.content store.now) table.now) v.0 offset (length out.old) }
{
    let len = out.len() as u64;
    let (first, end) = touched_pages(offset, len);
    let mut absent = 0;
    for page in first..end {
        let part = part_in_page(offset, len, page);
        let until = part.from + part.len;
        let is_absent = read_shown(
            store,
            table,
            Place { koid: v, page },
            part.at,
            &mut out[part.from as usize..until as usize],
        );
        if is_absent {
            absent += 1;
        }
    }
    absent
}

/// Reads the bytes of a range inside the VMO, `offset` bytes into it, of which no look-up ends at an absent page.
fn read_supplied<P: PageStore>(store: &P, table: &SourceTable, v: Koid, offset: u64, out: &mut [u8])
    requires readable { IsReadable (P.content store.now) (backings_of table.now) (loose_links_of table.now) }
    requires inside { offset + length out.old ≤ pages_of (P.content store.now) v.0 * PAGE }
    requires supplied { absent_touched (backings_of table.now) (loose_links_of table.now) (P.content store.now) v.0 offset (length out.old) ≡ [] }
    ensures { out.new ≡ text_in (source_state_of (P.content store.now) table.now) v.0 offset (length out.old) }
{
    read_present(store, table, v, offset, out);
}

/// Writes bytes to a range inside the VMO, `offset` bytes into it. Each page that the range touches is filled, if it is not held.
/// `NoMemory` where the pages that are not sole are more than the free frames, else `HostMemory` only where there is one. The room is made
/// before the first page changes.
pub(crate) fn write_pages<P: PageStore>(
    store: &mut P,
    table: &SourceTable,
    functions: &[SourceFn; 3],
    v: Koid,
    offset: u64,
    bytes: &[u8],
) -> Result<(), Refusal>
    requires kinds { map (λ f. f.kind) functions.now ≡ 0 ∷ 1 ∷ 2 ∷ [] }
    requires readable { IsReadable (P.content store.old) (backings_of table.now) (loose_links_of table.now) }
    requires vmo { IsSome ((P.content store.old).count v.0) }
    requires inside { offset + length bytes.now ≤ pages_of (P.content store.old) v.0 * PAGE }
    ensures ok { OnOk result (FillsPages (backings_of table.now) (loose_links_of table.now) (P.content store.old) (pieces v.0 offset bytes.now) (P.content store.new)) }
    ensures free { OnOk result (used (P.content store.old) + need (P.content store.old) v.0 (touched offset (length bytes.now))
        ≤ (P.content store.old).frames) }
    ensures same { OnErr result (P.content store.new ≡ P.content store.old) }
    ensures err { IfErr result (LacksFrames (P.content store.old) (need (P.content store.old) v.0 (touched offset (length bytes.now)))) }
{
    match reserve_to_own(store, v, offset, bytes.len() as u64) {
        Ok(()) => {
            write_range(store, table, functions, v, offset, bytes);
            Ok(())
        }
        Err(refusal) => Err(refusal),
    }
}

/// Writes bytes to a range inside the VMO, page by page, where the room for it is there.
#[tactic(auto, using(vm_model::proofs::ContentLaws::pages_of_le))]
fn write_range<P: PageStore>(
    store: &mut P,
    table: &SourceTable,
    functions: &[SourceFn; 3],
    v: Koid,
    offset: u64,
    bytes: &[u8],
)
    requires kinds { map (λ f. f.kind) functions.now ≡ 0 ∷ 1 ∷ 2 ∷ [] }
    requires readable { IsReadable (P.content store.old) (backings_of table.now) (loose_links_of table.now) }
    requires inside { offset + length bytes.now ≤ pages_of (P.content store.old) v.0 * PAGE }
    requires room { HasRows (P.content store.old) v.0 (touched offset (length bytes.now)) (P.spare store.old) }
    requires free { used (P.content store.old) + need (P.content store.old) v.0 (touched offset (length bytes.now))
        ≤ (P.content store.old).frames }
    ensures { FillsPages (backings_of table.now) (loose_links_of table.now) (P.content store.old) (pieces v.0 offset bytes.now) (P.content store.new) }
{
    let len = bytes.len() as u64;
    let (first, end) = touched_pages(offset, len);
    for page in first..end {
        let part = part_in_page(offset, len, page);
        let until = part.from + part.len;
        let frame = store.frame(v, page);
        let place = Place { koid: v, page };
        fill_page(
            store,
            table,
            functions,
            FoundPage { place, frame },
            part.at,
            &bytes[part.from as usize..until as usize],
        );
    }
}

/// Drops the clean pages from `first` to below `end`. `HostMemory` only where there is one, and then nothing was dropped. It goes by the
/// held pages of the range, and compares each of them with its source once.
pub(crate) fn evict_pages<P: PageStore>(
    store: &mut P,
    functions: &[SourceFn; 3],
    backing: &Backing,
    v: Koid,
    first: PageNo,
    end: PageNo,
) -> Result<(), HostMemory>
    requires kinds { map (λ f. f.kind) functions.now ≡ 0 ∷ 1 ∷ 2 ∷ [] }
    requires source { IsSource backing.now }
    requires good { IsGood (P.content store.old) }
    requires vmo { IsSome ((P.content store.old).count v.0) }
    requires order { first ≤ end }
    requires pages { end ≤ pages_of (P.content store.old) v.0 }
    ensures ok { OnOk result (P.content store.new ≡ cleared backing.now (P.content store.old) v.0 first end) }
    ensures same { OnErr result (P.content store.new ≡ P.content store.old) }
    ensures err { OnErr result (any_from first end (is_clean_at backing.now (P.content store.old) v.0) ≡ true) }
{
    let Some(page) = first_clean(store, functions, backing, v, first, end) else {
        return Ok(());
    };
    let Ok(()) = store.reserve(end - page) else {
        return Err(HostMemory);
    };
    store.zero(v, page);
    evict_range(store, functions, backing, v, page + 1, end);
    Ok(())
}

/// Returns the first clean page from `first` to below `end`. `None` if and only if none is clean.
fn first_clean<P: PageStore>(
    store: &P,
    functions: &[SourceFn; 3],
    backing: &Backing,
    v: Koid,
    first: PageNo,
    end: PageNo,
) -> Option<PageNo>
    requires kinds { map (λ f. f.kind) functions.now ≡ 0 ∷ 1 ∷ 2 ∷ [] }
    requires source { IsSource backing.now }
    requires good { IsGood (P.content store.now) }
    requires vmo { IsSome ((P.content store.now).count v.0) }
    requires order { first ≤ end }
    requires pages { end ≤ pages_of (P.content store.now) v.0 }
    ensures { IsFirstOrNone (is_clean_at backing.now (P.content store.now) v.0) first end result }
{
    let mut from = first;
    while let Some(page) = store.next_held_below(v, from, end) {
        if is_clean(store, functions, backing, v, page) {
            return Some(page);
        }
        from = page + 1;
    }
    None
}

/// Drops the clean pages from `first` to below `end`, where the room for it is there.
fn evict_range<P: PageStore>(
    store: &mut P,
    functions: &[SourceFn; 3],
    backing: &Backing,
    v: Koid,
    first: PageNo,
    end: PageNo,
)
    requires kinds { map (λ f. f.kind) functions.now ≡ 0 ∷ 1 ∷ 2 ∷ [] }
    requires source { IsSource backing.now }
    requires good { IsGood (P.content store.old) }
    requires vmo { IsSome ((P.content store.old).count v.0) }
    requires order { first ≤ end }
    requires pages { end ≤ pages_of (P.content store.old) v.0 }
    requires room { end - first ≤ P.spare store.old }
    ensures { P.content store.new ≡ cleared backing.now (P.content store.old) v.0 first end }
{
    let mut from = first;
    while let Some(page) = store.next_held_below(v, from, end) {
        evict_page(store, functions, backing, v, page);
        from = page + 1;
    }
}

/// Drops a page, if it is clean.
fn evict_page<P: PageStore>(
    store: &mut P,
    functions: &[SourceFn; 3],
    backing: &Backing,
    v: Koid,
    page: PageNo,
)
    requires kinds { map (λ f. f.kind) functions.now ≡ 0 ∷ 1 ∷ 2 ∷ [] }
    requires source { IsSource backing.now }
    requires good { IsGood (P.content store.old) }
    requires page { page < pages_of (P.content store.old) v.0 }
    requires room { 1 ≤ P.spare store.old }
    ensures content { P.content store.new ≡ cleared backing.now (P.content store.old) v.0 page (page + 1) }
    ensures spare { P.spare store.old ≤ P.spare store.new + 1 }
{
    if is_clean(store, functions, backing, v, page) {
        store.zero(v, page);
    }
}
