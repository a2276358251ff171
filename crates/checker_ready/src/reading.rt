//! Reading through mappings.

ghost use Rattle.std.specs.Prelude.{◌≡◌, ℕ, ◌+◌, ◌≤◌, [], ◌∷◌, length, take, drop, None};
ghost use Rattle.vm_base.specs.declared.limits.TheConstants.{DATA_BYTES, PAGE};
ghost use Rattle.vm_model.specs.declared.space.Readiness.TheVariants as Readiness;
ghost use Rattle.vm_model.specs.Contents.Content.{shown, IsGood};
ghost use Rattle.vm_model.specs.Contents.Writing.{touched};
ghost use Rattle.vm_model.specs.Machine.Access.{after_reading};
ghost use Rattle.vm_model.specs.Machine.Refusals.{read_refusals, first_of};
ghost use Rattle.ready_pages.specs.Access.{ReadsReady};
ghost use Rattle.ready_pages.specs.Changes.{Entries};
ghost use Rattle.page_store.specs.Flat.{flat_content};
ghost use Rattle.checker_ready.specs.Notes.{rows_of, ready_in, FitsRows, NotesAreTrue};
ghost use Rattle.checker_ready.specs.inside.Pages.{IsTouchedPage, LiesInVmo, Touches, faults_in, list_of};

use crate::places::{PagePlace, Place};
use crate::ready_map::ReadyMap;
use crate::touching::{Touched, TouchedPage};
use page_store::FlatStore;
use vm_base::{PAGE, in_page, page_of};
use vm_model::Readiness;

/// Reads bytes of the pages that an access from a place on touches, and which nothing refuses to read. There is room for a note
/// for each page fault. Each page is ready for reading then.
pub(crate) fn read_touched(
    pages: &FlatStore,
    ready: &mut ReadyMap,
    place: Place,
    accessed: Touched<TouchedPage>,
    out: &mut [u8],
)
    requires inside { Touches (λ p page. LiesInVmo (flat_content pages.now) page.entry) place.addr (length out.old) (list_of accessed) }
    requires len { length out.old ≤ DATA_BYTES }
    requires room { faults_in (list_of accessed) ≤ ready.old.room }
    ensures reads { (table : Entries) → IsGood (flat_content pages.now)
        → first_of (read_refusals (flat_content pages.now) (table place.root.0) (touched place.addr (length out.old))) ≡ None
        → NotesAreTrue (flat_content pages.now) table (rows_of ready.old)
        → Touches (IsTouchedPage Readiness.Read (flat_content pages.now) table (ready_in (rows_of ready.old)) place.root.0)
        place.addr (length out.old) (list_of accessed)
        → ReadsReady (flat_content pages.now) table place.root.0 place.addr (length out.old)
        (ready_in (rows_of ready.old)) (faults_in (list_of accessed)) out.new (ready_in (rows_of ready.new))
        × NotesAreTrue (flat_content pages.now) table (rows_of ready.new) }
{
    let root = place.root;
    let page = page_of(place.addr);
    let at = in_page(place.addr);
    let begin = PagePlace { root, page, at };
    match accessed {
        Touched::No => {}
        Touched::One(only) => read_page(pages, ready, begin, only, out),
        Touched::Two(first, second) => {
            let then = PagePlace {
                root,
                page: page + 1,
                at: 0,
            };
            let (here, behind) = out.split_at_mut((PAGE - at) as usize);
            read_page(pages, ready, begin, first, here);
            read_page(pages, ready, then, second, behind);
        }
    }
}

// Reads bytes of a page from a place in it on, and makes it ready for reading at least. There is room for a note if the page
// takes a page fault.
fn read_page(
    pages: &FlatStore,
    ready: &mut ReadyMap,
    place: PagePlace,
    page: TouchedPage,
    out: &mut [u8],
)
    requires inside { LiesInVmo (flat_content pages.now) page.entry }
    requires range { place.at + length out.old ≤ PAGE }
    requires room { faults_in (page ∷ []) ≤ ready.old.room }
    ensures bytes { out.new
        ≡ take (length out.old) (drop place.at (shown (flat_content pages.now) page.entry.koid.0 page.entry.page)) }
    ensures rows { (table : Entries) → NotesAreTrue (flat_content pages.now) table (rows_of ready.old)
        → IsTouchedPage Readiness.Read (flat_content pages.now) table (ready_in (rows_of ready.old)) place.root.0 place.page page
        → FitsRows (flat_content pages.now) table
        (after_reading place.root.0 (place.page ∷ []) (ready_in (rows_of ready.old))) (rows_of ready.new) }
    ensures room { ready.old.room ≤ ready.new.room + faults_in (page ∷ []) }
{
    let entry = page.entry;
    page_store::read_page(pages, entry.koid, entry.page, place.at, out);
    if page.unready {
        ready.set(pages, place.root, place.page, entry, Readiness::Read);
    }
}
