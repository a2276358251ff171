//! The bytes of pages: what a page shows, and pages that are filled.

ghost use Rattle.std.specs.Prelude.{◌≡◌, ◌+◌, ◌*◌, ◌<◌, ◌≤◌, ◌⊎◌, true, false, [], ◌∷◌, map, length, take, drop, Some};
ghost use Rattle.std.specs.List.{range_with_len};
ghost use Rattle.vm_base.specs.declared.limits.TheConstants.{SOURCE_BYTES, SOURCE_KIND_MAX};
ghost use Rattle.vm_base.specs.Pages.{replaced};
ghost use Rattle.vm_model.specs.Contents.Content.{pages_of, sole, used, IsGood};
ghost use Rattle.source_model.specs.Links.{page_below, walked};
ghost use Rattle.source_model.specs.Sources.{source_byte, backing_text, text_over};
ghost use Rattle.source_model.specs.declared.backing.Backing.{Backing};
ghost use Rattle.source_vm.specs.Pages.{FillsPage, IsFound, IsReadable, IsSource, is_clean_page, is_end_absent};
ghost use Rattle.source_vm.specs.Table.{backings_of, loose_links_of};

use crate::source_fn::SourceFn;
use crate::table::SourceTable;
use crate::walk::{FoundPage, Place, find_end, is_sourced};
use page_store::{PageStore, write_page};
use source_model::Backing;
use vm_base::{Koid, PAGE, PAGE_BYTES, PageNo, SOURCE_BYTES, SOURCE_PAGES};

/// Returns the function of a kind, of the three.
fn function_of(functions: &[SourceFn; 3], kind: u8) -> &SourceFn
    requires kinds { map (λ f. f.kind) functions.now ≡ 0 ∷ 1 ∷ 2 ∷ [] }
    requires kind { kind ≤ SOURCE_KIND_MAX }
    ensures { result.now.kind ≡ kind }
{
    match kind {
        0 => &functions[0],
        1 => &functions[1],
        _ => &functions[2],
    }
}

/// Fills `out`, of the size of a page, with the bytes that a page has by its backing.
fn load_page(functions: &[SourceFn; 3], backing: &Backing, page: PageNo, out: &mut [u8])
    requires kinds { map (λ f. f.kind) functions.now ≡ 0 ∷ 1 ∷ 2 ∷ [] }
    requires source { IsSource backing.now }
    requires size { length out.old ≡ PAGE }
    ensures { out.new ≡ backing_text (Some backing.now) page }
{
    if page < backing.seen {
        let function = function_of(functions, backing.kind);
        function.fill_page(backing.seed, backing.base + page, out);
    } else {
        out.fill(0);
    }
}

/// Replaces bytes of a page, from `at` bytes into it on.
fn patch(whole: &mut [u8], at: u64, bytes: &[u8])
    requires { at + length bytes.now ≤ length whole.old }
    ensures { whole.new ≡ replaced whole.old at bytes.now }
{
    let at = at as usize;
    whole[at..at + bytes.len()].copy_from_slice(bytes);
}

/// Fills `out`, of the size of a page, with the bytes that a page which was looked up has in the store, or by its backing.
fn load_end<P: PageStore>(
    store: &P,
    table: &SourceTable,
    functions: &[SourceFn; 3],
    end: FoundPage,
    out: &mut [u8],
)
    requires kinds { map (λ f. f.kind) functions.now ≡ 0 ∷ 1 ∷ 2 ∷ [] }
    requires readable { IsReadable (P.content store.now) (backings_of table.now) (loose_links_of table.now) }
    requires found { IsFound (P.content store.now) end }
    requires size { length out.old ≡ PAGE }
    ensures { out.new ≡ text_over (P.content store.now) (backings_of table.now) end.place.koid.0 end.place.page }
{
    match end.frame {
        Some(tag) => store.read(tag, 0, out),
        None => load_backed(table, functions, end.place, out),
    }
}

/// Fills `out`, of the size of a page, with the bytes that a page has by the backing of its VMO: zeros where it has none.
fn load_backed(table: &SourceTable, functions: &[SourceFn; 3], end: Place, out: &mut [u8])
    requires kinds { map (λ f. f.kind) functions.now ≡ 0 ∷ 1 ∷ 2 ∷ [] }
    requires sources { (b : Backing) → backings_of table.now end.koid.0 ≡ Some b → IsSource b }
    requires size { length out.old ≡ PAGE }
    ensures { out.new ≡ backing_text (backings_of table.now end.koid.0) end.page }
{
    match table.backings.find(0, end.koid.0) {
        Some(backing) => load_page(functions, &backing, end.page, out),
        None => out.fill(0),
    }
}

/// Fills `out`, of the size of a page, with the bytes that a page which was looked up shows.
fn load_text<P: PageStore>(
    store: &P,
    table: &SourceTable,
    functions: &[SourceFn; 3],
    at: FoundPage,
    out: &mut [u8],
)
    requires kinds { map (λ f. f.kind) functions.now ≡ 0 ∷ 1 ∷ 2 ∷ [] }
    requires readable { IsReadable (P.content store.now) (backings_of table.now) (loose_links_of table.now) }
    requires page { at.place.page < pages_of (P.content store.now) at.place.koid.0 }
    requires found { IsFound (P.content store.now) at }
    requires size { length out.old ≡ PAGE }
    ensures { out.new ≡ walked (P.content store.now) (backings_of table.now)
        (page_below (P.content store.now) (loose_links_of table.now)) at.place.koid.0 at.place.page }
{
    let end = find_end(store, table, at);
    load_end(store, table, functions, end, out);
}

/// Reads the bytes that a page shows, from `at` bytes into it on, unless the look-up ends at an absent page. Reports whether it does.
pub(crate) fn read_shown<P: PageStore>(
    store: &P,
    table: &SourceTable,
    place: Place,
    at: u64,
    out: &mut [u8],
) -> bool
    requires readable { IsReadable (P.content store.now) (backings_of table.now) (loose_links_of table.now) }
    requires page { place.page < pages_of (P.content store.now) place.koid.0 }
    requires range { at + length out.old ≤ PAGE }
    ensures absent { result ≡ is_end_absent (backings_of table.now) (loose_links_of table.now) (P.content store.now) place.koid.0 place.page }
    ensures read { result ≡ false → out.new ≡ take (length out.old) (drop at (walked (P.content store.now) (backings_of table.now)
        (page_below (P.content store.now) (loose_links_of table.now)) place.koid.0 place.page)) }
{
    let frame = store.frame(place.koid, place.page);
    let end = find_end(store, table, FoundPage { place, frame });
    let Some(tag) = end.frame else {
        if is_sourced(table, end.place) {
            return true;
        }
        out.fill(0);
        return false;
    };
    store.read(tag, at, out);
    false
}

/// Fills a page that was looked up: it is owned, and has its whole text then, with these bytes written from `at` bytes into it on. With
/// no bytes it is supplied. A page that is held moves no more than the bytes.
pub(crate) fn fill_page<P: PageStore>(
    store: &mut P,
    table: &SourceTable,
    functions: &[SourceFn; 3],
    found: FoundPage,
    at: u64,
    bytes: &[u8],
)
    requires kinds { map (λ f. f.kind) functions.now ≡ 0 ∷ 1 ∷ 2 ∷ [] }
    requires readable { IsReadable (P.content store.old) (backings_of table.now) (loose_links_of table.now) }
    requires page { found.place.page < pages_of (P.content store.old) found.place.koid.0 }
    requires found { IsFound (P.content store.old) found }
    requires within { at + length bytes.now ≤ PAGE }
    requires room { (sole (P.content store.old) found.place.koid.0 found.place.page ≡ true)
        ⊎ ((1 ≤ P.spare store.old) × (used (P.content store.old) < (P.content store.old).frames)) }
    ensures fills { FillsPage (backings_of table.now) (loose_links_of table.now) (P.content store.old)
        (record { koid = found.place.koid.0; page = found.place.page; at = at; bytes = bytes.now }) (P.content store.new) }
    ensures spare { P.spare store.old ≤ P.spare store.new + 1 }
{
    let place = found.place;
    match found.frame {
        Some(_) => write_page(store, place.koid, place.page, at, bytes),
        None => {
            let mut whole = [0; PAGE_BYTES];
            load_text(store, table, functions, found, &mut whole);
            patch(&mut whole, at, bytes);
            write_page(store, place.koid, place.page, 0, &whole);
        }
    }
}

/// Returns whether a page is clean: it is held, and has the bytes that its backing has.
pub(crate) fn is_clean<P: PageStore>(
    store: &P,
    functions: &[SourceFn; 3],
    backing: &Backing,
    v: Koid,
    page: PageNo,
) -> bool
    requires kinds { map (λ f. f.kind) functions.now ≡ 0 ∷ 1 ∷ 2 ∷ [] }
    requires source { IsSource backing.now }
    requires good { IsGood (P.content store.now) }
    requires page { page < pages_of (P.content store.now) v.0 }
    ensures { result ≡ is_clean_page backing.now ((P.content store.now).page v.0 page) page }
{
    match store.frame(v, page) {
        None => false,
        Some(tag) => {
            let mut held = [0; PAGE_BYTES];
            store.read(tag, 0, &mut held);
            let mut backed = [0; PAGE_BYTES];
            load_page(functions, backing, page, &mut backed);
            held == backed
        }
    }
}
