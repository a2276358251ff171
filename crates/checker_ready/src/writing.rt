//! Writing through mappings.

ghost use Rattle.std.specs.Prelude.{◌≡◌, ℕ, ◌+◌, ◌≤◌, [], ◌∷◌, length, None, OnOk, OnErr};
ghost use Rattle.vm_base.specs.declared.limits.TheConstants.{DATA_BYTES, PAGE};
ghost use Rattle.vm_model.specs.declared.space.Readiness.TheVariants as Readiness;
ghost use Rattle.vm_model.specs.Contents.Content.{IsGood};
ghost use Rattle.vm_model.specs.Contents.Writing.{WritesPiece, touched};
ghost use Rattle.vm_model.specs.Machine.Refusals.{write_refusals, first_of};
ghost use Rattle.vm_model.specs.Space.Readiness.{settled, with_ready};
ghost use Rattle.page_store.specs.Needs.{MayOwn};
ghost use Rattle.ready_pages.specs.Access.{WritesReady};
ghost use Rattle.ready_pages.specs.Changes.{Entries};
ghost use Rattle.page_store.specs.Flat.{flat_content, flat_spare};
ghost use Rattle.checker_ready.specs.Notes.{rows_of, ready_in, FitsRows, NotesAreTrue};
ghost use Rattle.checker_ready.specs.inside.Pages.{IsTouchedPage, Touches, MayWrite, MayWritePage, faults_in, list_of};

use crate::places::{PagePlace, Place};
use crate::ready_map::ReadyMap;
use crate::touching::{Touched, TouchedPage};
use page_store::{FlatStore, PageStore};
use vm_base::{HostMemory, PAGE, in_page, page_of};
use vm_model::Readiness;

/// Makes room for so many page faults: for owning two pages, if there are any, and for a note for each.
pub(crate) fn make_room(
    pages: &mut FlatStore,
    ready: &mut ReadyMap,
    faults: u64,
) -> Result<(), HostMemory>
    ensures rows { OnOk result (1 ≤ faults → 2 ≤ flat_spare pages.new) }
    ensures notes { OnOk result (faults ≤ ready.new.room) }
    ensures wanted { OnErr result (1 ≤ faults) }
    ensures content { flat_content pages.new ≡ flat_content pages.old }
    ensures same { rows_of ready.new ≡ rows_of ready.old }
{
    if faults == 0 {
        return Ok(());
    }
    let Ok(()) = pages.reserve(2) else {
        return Err(HostMemory);
    };
    let Ok(()) = ready.reserve(faults) else {
        return Err(HostMemory);
    };
    Ok(())
}

/// Writes bytes to the pages that an access from a place on touches, and which nothing refuses to write. There is room for the
/// page faults. Page by page, in the order of the addresses, the page that is shown is owned (copy on write), what showed it
/// in another frame is ready for nothing, and its bytes are replaced. Each page is ready for writing then.
pub(crate) fn write_touched(
    pages: &mut FlatStore,
    ready: &mut ReadyMap,
    place: Place,
    accessed: Touched<TouchedPage>,
    bytes: &[u8],
)
    requires may { MayWrite (flat_content pages.old) place.addr (length bytes.now) (list_of accessed) }
    requires len { length bytes.now ≤ DATA_BYTES }
    requires room { 1 ≤ faults_in (list_of accessed) → 2 ≤ flat_spare pages.old }
    requires notes { faults_in (list_of accessed) ≤ ready.old.room }
    ensures writes { (table : Entries)
        → first_of (write_refusals (flat_content pages.old) (table place.root.0) (touched place.addr (length bytes.now))) ≡ None
        → NotesAreTrue (flat_content pages.old) table (rows_of ready.old)
        → Touches (IsTouchedPage Readiness.Write (flat_content pages.old) table (ready_in (rows_of ready.old)) place.root.0)
        place.addr (length bytes.now) (list_of accessed)
        → WritesReady (flat_content pages.old) table place.root.0 place.addr bytes.now
        (ready_in (rows_of ready.old)) (faults_in (list_of accessed)) (flat_content pages.new) (ready_in (rows_of ready.new))
        × NotesAreTrue (flat_content pages.new) table (rows_of ready.new) }
{
    let root = place.root;
    let page = page_of(place.addr);
    let at = in_page(place.addr);
    let begin = PagePlace { root, page, at };
    match accessed {
        Touched::No => {}
        Touched::One(only) => write_page(pages, ready, begin, only, bytes),
        Touched::Two(first, second) => {
            let then = PagePlace {
                root,
                page: page + 1,
                at: 0,
            };
            let (here, behind) = bytes.split_at((PAGE - at) as usize);
            write_page(pages, ready, begin, first, here);
            write_page(pages, ready, then, second, behind);
        }
    }
}

// Writes bytes to a page from a place in it on. If the page is not ready for writing, there is room for a page fault, and it
// is ready for writing then. Otherwise the page that it shows is sole and keeps its frame.
fn write_page(
    pages: &mut FlatStore,
    ready: &mut ReadyMap,
    place: PagePlace,
    page: TouchedPage,
    bytes: &[u8],
)
    requires good { IsGood (flat_content pages.old) }
    requires may { MayWritePage (flat_content pages.old) page }
    requires own { MayOwn (flat_content pages.old) page.entry.koid.0 page.entry.page }
    requires range { place.at + length bytes.now ≤ PAGE }
    requires room { faults_in (page ∷ []) ≤ flat_spare pages.old }
    requires notes { faults_in (page ∷ []) ≤ ready.old.room }
    ensures piece { WritesPiece (flat_content pages.old)
        (record { koid = page.entry.koid.0; page = page.entry.page; at = place.at; bytes = bytes.now }) (flat_content pages.new) }
    ensures rows { (table : Entries) → NotesAreTrue (flat_content pages.old) table (rows_of ready.old)
        → IsTouchedPage Readiness.Write (flat_content pages.old) table (ready_in (rows_of ready.old)) place.root.0 place.page page
        → FitsRows (flat_content pages.new) table
        (with_ready (settled (flat_content pages.old) (flat_content pages.new) table (ready_in (rows_of ready.old)))
        place.root.0 place.page Readiness.Write) (rows_of ready.new) }
    ensures room { flat_spare pages.old ≤ flat_spare pages.new + 1 }
    ensures notes { ready.old.room ≤ ready.new.room + faults_in (page ∷ []) }
{
    let entry = page.entry;
    page_store::write_page(pages, entry.koid, entry.page, place.at, bytes);
    if page.unready {
        ready.set(pages, place.root, place.page, entry, Readiness::Write);
    }
}
